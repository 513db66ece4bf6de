// Codes and decodes blocks for each n from 4 to 16, each t that n allows and 1, 2, 32 and 128 stripes. A line `code` has n, t, k and a
// digest of the n pieces. A line `decode` has n, t, k and how false pieces are made, then how many calls answered a block, how many beyond, how
// many a row of marks that is not empty (document 02, U1), and a digest of all answers, rows and blocks: any number of pieces are false or absent,
// some of these by their run number (document 02, U11), at n 4 and n 7 every set of them, else scattered ones. Then come calls that are refused or just
// taken, with the answer, the row of marks and a digest of all lent bytes after each, examples c, d and e of document 01, a block of zeros with an absent
// slot, three stripes with a false value each, slots of another run, and at n 7 and t 2 the block from four true pieces (document 02, U2), and the
// answers with 0 to 3 of them: answer, row and block.
// The expected output comes from the independent reference, which decodes by trying sets of t + 1 present slots:
//     cargo run --release --bin code_vectors > crates/reed_solomon_cases/stdout
#![tactic(auto)]

ghost use Rattle.std.specs.Prelude.{◌≡◌, ◌<◌, ◌≤◌};

use settings::Refusal;
use std::io;
use wire::Layout;

// What makes a piece false: all its bytes, those of one stripe, that its slot is absent, or that it is the piece of the other block.
#[derive(Clone, Copy)]
enum Fault {
    Bytes,
    Stripe,
    Absent,
    Other,
}

const FAULTS: [Fault; 4] = [Fault::Bytes, Fault::Stripe, Fault::Absent, Fault::Other];

// What is made of a block: its pieces alone, calls with slots that are false by one fault, or by any of the four.
#[derive(Clone, Copy)]
enum Manner {
    Code,
    By(Fault),
    Any,
}

const MANNERS: [Manner; 6] = [
    Manner::Code,
    Manner::By(Fault::Bytes),
    Manner::By(Fault::Stripe),
    Manner::By(Fault::Absent),
    Manner::By(Fault::Other),
    Manner::Any,
];

// The number that is printed for a manner, its place in the list.
impl From<Manner> for usize {
    fn from(manner: Manner) -> usize {
        match manner {
            Manner::Code => 0,
            Manner::By(fault) => 1 + fault as usize,
            Manner::Any => 5,
        }
    }
}

// The settings, the run number, how false pieces are made, what random bytes come from, and which slots have one: the bit worth 1 for controller 1.
#[derive(Clone, Copy)]
struct Case {
    n: usize,
    t: usize,
    k: usize,
    run: u16,
    manner: Manner,
    seed: u64,
    mask: u64,
    ghost few: { n ≤ 16 },
    ghost tolerated: { t ≤ 5 },
    ghost short: { k ≤ 128 },
}

// An index below 16 stays a number with a `requires` below: a struct of it would be made at every turn of a loop.

// What decoding answers.
type Answer = Result<Option<u16>, Refusal>;

// How many calls answered a block, beyond, and a row that is not empty, and a digest of what they answered and left.
#[derive(Clone, Copy)]
struct Tally {
    blocks: u64,
    beyond: u64,
    naming: u64,
    digest: u64,
}

// No call.
const NONE: Tally = Tally {
    blocks: 0,
    beyond: 0,
    naming: 0,
    digest: 0,
};

// The coefficients of (x + 1) .. (x + t), the lowest first, in row t: the points 1 to t are its roots. Row 0 has none.
const ROOTS: [[u8; 6]; 6] = [
    [0, 0, 0, 0, 0, 0],
    [1, 1, 0, 0, 0, 0],
    [2, 3, 1, 0, 0, 0],
    [6, 7, 0, 1, 0, 0],
    [24, 26, 7, 4, 1, 0],
    [120, 106, 1, 19, 1, 1],
];

// n, t, k, number, and the lengths of block and piece: each row of the refusal table, n 7 with t 2 and k 128 taken, and lengths a byte off; then
// calls that several rows refuse, of which the first counts. A row is a list of numbers, printed as it stands, and `try_encode` names them: a struct for each
// would take six lines.
const ENCODINGS: [[usize; 6]; 43] = [
    [3, 1, 1, 1, 2, 1],
    [17, 1, 1, 1, 2, 1],
    [4, 0, 1, 1, 1, 1],
    [4, 2, 1, 1, 3, 1],
    [16, 6, 1, 1, 7, 1],
    [4, 1, 0, 1, 0, 0],
    [4, 1, 129, 1, 258, 129],
    [4, 1, 1, 0, 2, 1],
    [4, 1, 1, 5, 2, 1],
    [4, 1, 1, 1, 2, 1],
    [4, 1, 1, 4, 2, 1],
    [4, 1, 1, 1, 1, 1],
    [4, 1, 1, 1, 3, 1],
    [4, 1, 1, 1, 2, 0],
    [4, 1, 1, 1, 2, 2],
    [7, 2, 128, 7, 384, 128],
    [7, 2, 128, 7, 383, 128],
    [7, 2, 128, 7, 385, 128],
    [7, 2, 128, 7, 384, 127],
    [7, 2, 128, 7, 384, 129],
    [7, 2, 128, 8, 384, 128],
    [16, 5, 128, 16, 768, 128],
    [16, 5, 128, 17, 768, 128],
    [3, 0, 0, 0, 0, 0],
    [3, 1, 129, 1, 258, 129],
    [3, 1, 1, 0, 2, 1],
    [3, 1, 1, 1, 1, 1],
    [4, 0, 129, 1, 129, 129],
    [4, 2, 1, 5, 3, 1],
    [4, 2, 1, 1, 2, 1],
    [4, 1, 0, 5, 0, 0],
    [4, 1, 129, 1, 258, 128],
    [4, 1, 1, 0, 2, 2],
    [4, 1, 1, 5, 1, 1],
    [0, 0, 0, 0, 0, 0],
    [18446744073709551615, 18446744073709551615, 1, 1, 2, 1],
    [4, 18446744073709551615, 18446744073709551615, 1, 2, 1],
    [4, 6148914691236517206, 1, 1, 2, 1],
    [4, 1, 18446744073709551615, 0, 2, 1],
    [4, 1, 9223372036854775808, 0, 0, 1],
    [4, 1, 1, 18446744073709551615, 1, 1],
    [4, 1, 1, 256, 2, 1],
    [4, 1, 1, 257, 2, 1],
];

// n, t, k, the run number, and the lengths of slots and block: the same. All slots are of run 257; with another they are absent.
const DECODINGS: [[usize; 6]; 41] = [
    [3, 1, 1, 257, 12, 2],
    [17, 1, 1, 257, 68, 2],
    [4, 0, 1, 257, 16, 1],
    [4, 2, 1, 257, 16, 3],
    [16, 6, 1, 257, 64, 7],
    [4, 1, 0, 257, 12, 0],
    [4, 1, 129, 257, 528, 258],
    [4, 1, 1, 257, 16, 2],
    [4, 1, 1, 257, 15, 2],
    [4, 1, 1, 257, 17, 2],
    [4, 1, 1, 257, 12, 2],
    [4, 1, 1, 257, 20, 2],
    [4, 1, 1, 257, 16, 1],
    [4, 1, 1, 257, 16, 3],
    [4, 1, 1, 257, 8, 2],
    [4, 1, 1, 257, 0, 0],
    [7, 2, 128, 257, 917, 384],
    [7, 2, 128, 257, 916, 384],
    [7, 2, 128, 257, 918, 384],
    [7, 2, 128, 257, 917, 383],
    [7, 2, 128, 257, 917, 385],
    [16, 5, 128, 257, 2096, 768],
    [4, 1, 1, 0, 16, 2],
    [4, 1, 1, 1, 16, 2],
    [4, 1, 1, 256, 16, 2],
    [7, 2, 128, 65535, 917, 384],
    [7, 2, 128, 256, 917, 383],
    [3, 0, 0, 257, 0, 0],
    [3, 1, 129, 257, 396, 258],
    [3, 1, 1, 257, 11, 2],
    [4, 0, 129, 257, 528, 129],
    [4, 2, 1, 257, 16, 2],
    [4, 1, 0, 257, 16, 2],
    [4, 1, 129, 257, 527, 258],
    [0, 0, 0, 257, 0, 0],
    [18446744073709551615, 18446744073709551615, 1, 257, 16, 2],
    [4, 18446744073709551615, 18446744073709551615, 257, 16, 2],
    [4, 6148914691236517206, 1, 257, 16, 2],
    [4, 1, 18446744073709551613, 257, 0, 0],
    [4, 1, 18446744073709551615, 257, 8, 0],
    [4, 1, 9223372036854775808, 257, 12, 0],
];

// (`row_number` of boards is private to that crate.)
// The number that is printed for coding's answer.
fn coded(a: Result<(), Refusal>) -> u8 {
    match a {
        Ok(()) => 0,
        Err(refusal) => u8::from(refusal),
    }
}

// The number that is printed for an answer: 0 a block, 9 beyond, else that of the refusal.
fn number(a: Answer) -> u8 {
    match a {
        Ok(Some(_)) => 0,
        Ok(None) => 9,
        Err(refusal) => u8::from(refusal),
    }
}

// The row of marks, empty where there is no block.
fn row(a: Answer) -> u16 {
    match a {
        Ok(Some(named)) => named,
        _ => 0,
    }
}

impl Case {
    fn new(n: usize, t: usize, k: usize, run: u16, manner: Manner) -> Case
        requires { (n ≤ 16) × (t ≤ 5) × (k ≤ 128) }
    {
        Case {
            n,
            t,
            k,
            run,
            manner,
            seed: cases::seed(n as u64, t, k, usize::from(manner)),
            mask: 0,
        }
    }

    // Set x of false slots.
    fn with_set(mut self, x: usize) -> Case {
        self.mask = self.set_at(x);
        self.seed = cases::mix(self.seed, x as u64);
        self
    }

    // How many sets of false slots are looked at: at n 4 and n 7 all sets, else two of each size.
    fn set_count(self) -> usize {
        match self.n {
            4 => 16,
            7 => 128,
            n => 2 * (n + 1),
        }
    }

    fn set_at(self, x: usize) -> u64 {
        if self.n == 4 || self.n == 7 {
            return x as u64;
        }
        scattered(self.n, x / 2, cases::mix(self.seed, x as u64))
    }

    fn layout(self) -> Layout {
        wire::layout_with(self.run, self.k)
    }

    // What makes the piece in slot i false; none where it is to be true.
    fn fault_of(self, i: usize) -> Option<Fault>
        requires { i < 16 }
    {
        if (self.mask >> i) % 2 == 0 {
            return None;
        }
        match self.manner {
            Manner::Code => None,
            Manner::By(fault) => Some(fault),
            Manner::Any => Some(FAULTS[cases::draw(self.seed, 1, i, 0) % 4]),
        }
    }

    // Whether byte b of a piece of k bytes is to be false.
    fn is_spoilt(self, i: usize, k: usize, b: usize) -> bool
        requires { (i < 16) × (b < k) }
    {
        match self.fault_of(i) {
            Some(Fault::Bytes) => true,
            Some(Fault::Stripe) => cases::draw(self.seed, 3, i, 0) % k == b,
            _ => false,
        }
    }

    fn spoil(self, m: &mut [u8], i: usize)
        requires { i < 16 }
    {
        let k = m.len();
        for (b, byte) in m.iter_mut().enumerate() {
            if self.is_spoilt(i, k, b) {
                *byte ^= cases::byte(1 + cases::draw(self.seed, 2, i, b) % 255);
            }
        }
    }

    // Another byte.
    fn other_byte(self, x: u8, i: usize) -> u8 {
        x ^ cases::byte(1 + cases::draw(self.seed, 4, i, 0) % 255)
    }

    // Makes slot i absent: it has another first byte, or the number of another run, which differs in the low or in the high byte. Its piece stays.
    fn hide(self, slots: &mut [u8], i: usize)
        requires { i < 16 }
    {
        let b = i * (self.k + 3) + cases::draw(self.seed, 6, i, 0) % 3;
        if b < slots.len() {
            slots[b] = self.other_byte(slots[b], i);
        }
    }
}

// n ≤ 16 and t ≤ 5 are asked where a Case is made, and of what takes n or t alone: a Case in its place would bring five fields that are not read.

fn root_byte(t: usize, b: usize) -> u8
    requires { t ≤ 5 }
{
    ROOTS[t][b % (t + 1)]
}

fn block_byte(seed: u64, t: usize, b: usize) -> u8
    requires { t ≤ 5 }
{
    cases::byte(cases::draw(seed, 0, 0, b)) ^ root_byte(t, b)
}

// The bytes of a block, with t 0. With another t, another block: pieces 1 to t of its coding are those of the block, the others have no byte in
// common.
fn fill(block: &mut [u8], seed: u64, t: usize)
    requires { t ≤ 5 }
{
    for (b, byte) in block.iter_mut().enumerate() {
        *byte = block_byte(seed, t, b);
    }
}

// Slot i with its piece of `block`, spoilt if it is to be, by way of m; a digest of d, the answer and the piece before that.
fn put(slots: &mut [u8], m: &mut [u8], block: &[u8], c: Case, i: usize, d: u64) -> u64
    requires { i < 16 }
{
    let a = coded(reed_solomon::encode(c.n, c.t, c.k, i + 1, block, m));
    let r = cases::digest(cases::mix(d, u64::from(a)), m);
    c.spoil(m, i);
    wire::send_one(slots, c.layout(), i + 1, m);
    r
}

// The slots, a piece, the block, the other block and the block that decoding leaves stay parameters: in a struct of them, a call that lends one and reads
// another has no proof.

// Slot i, also where it is absent or has the piece of the other block.
fn slot(
    slots: &mut [u8],
    m: &mut [u8],
    block: &[u8],
    other: &[u8],
    c: Case,
    i: usize,
    d: u64,
) -> u64
    requires { i < 16 }
{
    match c.fault_of(i) {
        Some(Fault::Other) => put(slots, m, other, c, i, d),
        Some(Fault::Absent) => {
            let r = put(slots, m, block, c, i, d);
            c.hide(slots, i);
            r
        }
        _ => put(slots, m, block, c, i, d),
    }
}

// All slots, and a digest of the pieces.
fn gather(slots: &mut [u8], m: &mut [u8], block: &[u8], other: &[u8], c: Case) -> u64 {
    let mut d: u64 = 0;
    for i in 0..c.n {
        d = slot(slots, m, block, other, c, i, d);
    }
    d
}

// The slots of a case decoded.
fn play(
    slots: &mut [u8],
    m: &mut [u8],
    block: &[u8],
    other: &[u8],
    out: &mut [u8],
    c: Case,
    so_far: Tally,
) -> Tally {
    gather(slots, m, block, other, c);
    let a = reed_solomon::decode(c.n, c.t, c.layout(), slots, out);
    so_far.with(a, out)
}

// All sets of false slots.
fn play_sets(
    slots: &mut [u8],
    m: &mut [u8],
    block: &[u8],
    other: &[u8],
    out: &mut [u8],
    c: Case,
) -> Tally {
    let mut r = NONE;
    for x in 0..c.set_count() {
        r = play(slots, m, block, other, out, c.with_set(x), r);
    }
    r
}

// The pieces alone, or all sets of false slots.
fn play_blocks(
    rt: &impl Print,
    slots: &mut [u8],
    m: &mut [u8],
    block: &mut [u8],
    other: &mut [u8],
    out: &mut [u8],
    c: Case,
) -> io::Result<()> {
    fill(block, c.seed, 0);
    fill(other, c.seed, c.t);
    match c.manner {
        Manner::Code => print_code(rt, c, gather(slots, m, block, other, c)),
        _ => print_tally(rt, c, play_sets(slots, m, block, other, out, c)),
    }
}

// A digest of d, an answer and what it left in the block.
fn digest_answer(d: u64, a: Answer, block: &[u8]) -> u64 {
    let number = cases::mix(d, number(a) as u64);
    cases::digest(cases::mix(number, row(a) as u64), block)
}

impl Tally {
    // With one call more.
    fn with(self, a: Answer, block: &[u8]) -> Tally {
        Tally {
            blocks: self
                .blocks
                .wrapping_add(u64::from(matches!(a, Ok(Some(_))))),
            beyond: self.beyond.wrapping_add(u64::from(matches!(a, Ok(None)))),
            naming: self.naming.wrapping_add(u64::from(row(a) != 0)),
            digest: digest_answer(self.digest, a, block),
        }
    }
}

fn is_before(seed: u64, i: usize, j: usize) -> bool {
    let a = cases::draw(seed, 5, i, 0);
    let b = cases::draw(seed, 5, j, 0);
    a < b || a == b && i < j
}

// How many of n come before i in an order by random numbers.
fn rank(n: usize, seed: u64, i: usize) -> usize
    requires { n ≤ 16 }
{
    (0..n).filter(|j| is_before(seed, *j, i)).count()
}

// A set of `size` of n controllers.
fn scattered(n: usize, size: usize, seed: u64) -> u64
    requires { n ≤ 16 }
{
    let mut mask: u64 = 0;
    for i in 0..n {
        if rank(n, seed, i) < size {
            mask |= 1 << i;
        }
    }
    mask
}

fn print_code(rt: &impl Print, c: Case, d: u64) -> io::Result<()> {
    cases::numbers(rt, b"code", &[c.n, c.t, c.k])?;
    cases::text(rt, b":")?;
    cases::end_digest(rt, d)
}

// A text, the answer's number and its row.
fn print_answer(rt: &impl Print, name: &[u8], a: Answer) -> io::Result<()> {
    cases::numbers(rt, name, &[number(a) as usize, row(a) as usize])
}

fn print_tally(rt: &impl Print, c: Case, r: Tally) -> io::Result<()> {
    cases::numbers(rt, b"decode", &[c.n, c.t, c.k, usize::from(c.manner)])?;
    cases::numbers(
        rt,
        b":",
        &[r.blocks as usize, r.beyond as usize, r.naming as usize],
    )?;
    cases::end_digest(rt, r.digest)
}

// A manner with settings, if n allows t, with as many bytes as n, t and k ask for.
fn play_case(rt: &impl Print, n: usize, t: usize, k: usize, manner: Manner) -> io::Result<()>
    requires { (n ≤ 16) × (t ≤ 5) × (k ≤ 128) }
{
    if n <= 3 * t {
        return Ok(());
    }
    let mut slots = [0u8; 4096];
    let mut piece = [0u8; 4096];
    let mut block = [0u8; 4096];
    let mut other = [0u8; 4096];
    let mut out = [0u8; 4096];
    let size = cases::fitting(wire::block_length(n, t, k), &block);
    let end = cases::fitting(wire::outbox_length(n, t, k, 3 * t + 8), &slots);
    let run = cases::some_run(n % 4 + usize::from(manner) % 4);
    play_blocks(
        rt,
        &mut slots[..end],
        &mut piece[..k],
        &mut block[..size],
        &mut other[..size],
        &mut out[..size],
        Case::new(n, t, k, run, manner),
    )
}

// n from 4 to 16, t from 1 to 5, four numbers of stripes and six manners.
fn play_all(rt: &impl Print) -> io::Result<()> {
    for n in 4..17 {
        for t in 1..6 {
            for k in [1, 2, 32, 128] {
                for manner in MANNERS {
                    play_case(rt, n, t, k, manner)?;
                }
            }
        }
    }
    Ok(())
}

// Coding and decoding are tried apart, not by one function: two tables, whose columns differ, and two functions of the library, which write to another of
// the two slices and answer another type.

// Coding with a block and a piece of the lengths in a row. All bytes of both slices count for the digest.
fn try_encode(rt: &impl Print, row: [usize; 6], block: &[u8], piece: &mut [u8]) -> io::Result<()> {
    let [n, t, k, number, size, end] = row;
    let size = cases::fitting(size, block);
    let end = cases::fitting(end, piece);
    let a = coded(reed_solomon::encode(n, t, k, number, &block[..size], &mut piece[..end]));
    cases::numbers(rt, b"encode", &row)?;
    cases::numbers(rt, b":", &[a as usize])?;
    cases::end_digest(rt, cases::digest(cases::digest(0, block), piece))
}

// The same for decoding.
fn try_decode(rt: &impl Print, row: [usize; 6], slots: &[u8], block: &mut [u8]) -> io::Result<()> {
    let [n, t, k, run, end, size] = row;
    let end = cases::fitting(end, slots);
    let size = cases::fitting(size, block);
    let layout = wire::layout_with(cases::word(run), k);
    let a = reed_solomon::decode(n, t, layout, &slots[..end], &mut block[..size]);
    cases::numbers(rt, b"decode", &row)?;
    print_answer(rt, b":", a)?;
    cases::end_digest(rt, cases::digest(cases::digest(0, slots), block))
}

fn try_encoding(rt: &impl Print, row: [usize; 6]) -> io::Result<()> {
    let block = [85u8; 4096];
    let mut piece = [170u8; 4096];
    try_encode(rt, row, &block, &mut piece)
}

// All slots are present in run 257, with pieces of 01.
fn try_decoding(rt: &impl Print, row: [usize; 6]) -> io::Result<()> {
    let slots = [1u8; 4096];
    let mut block = [170u8; 4096];
    try_decode(rt, row, &slots, &mut block)
}

fn try_encodings(rt: &impl Print) -> io::Result<()> {
    for row in &ENCODINGS {
        try_encoding(rt, *row)?;
    }
    Ok(())
}

fn try_decodings(rt: &impl Print) -> io::Result<()> {
    for row in &DECODINGS {
        try_decoding(rt, *row)?;
    }
    Ok(())
}

fn example_piece(rt: &impl Print, number: usize) -> io::Result<()> {
    let mut piece = [0u8; 1];
    let _answer = reed_solomon::encode(4, 1, 1, number, b"\x0a\x14", &mut piece);
    cases::text(rt, b"c")?;
    cases::hex(rt, &piece)?;
    cases::newline(rt)
}

fn example_decoded(
    rt: &impl Print,
    name: &[u8],
    c: Case,
    slots: &[u8],
    block: &mut [u8],
) -> io::Result<()> {
    let a = reed_solomon::decode(c.n, c.t, c.layout(), slots, block);
    print_answer(rt, name, a)?;
    cases::hex(rt, block)?;
    cases::newline(rt)
}

fn example_slots(rt: &impl Print, name: &[u8], run: u16, slots: &[u8]) -> io::Result<()> {
    let mut block = [255u8; 2];
    example_decoded(
        rt,
        name,
        Case::new(4, 1, 1, run, Manner::Code),
        slots,
        &mut block,
    )
}

// Slots of three stripes 0a14: 4 is false in the first, 1 in the second, 2 in the third.
fn example_stripes(rt: &impl Print) -> io::Result<()> {
    let mut block = [255u8; 6];
    example_decoded(
        rt,
        b"apart",
        Case::new(4, 1, 3, 0, Manner::Code),
        b"\x01\x00\x00\x1e\x00\x1e\x01\x00\x00\x22\x22\x00\x01\x00\x00\x36\x36\x36\x01\x00\x00\x00\x5a\x5a",
        &mut block,
    )
}

// Slots of seven controllers, t 2: those that are present have their pieces of 0a141e.
fn example_present(rt: &impl Print, name: &[u8], slots: &[u8]) -> io::Result<()> {
    let mut block = [255u8; 3];
    example_decoded(
        rt,
        name,
        Case::new(7, 2, 1, 256, Manner::Code),
        slots,
        &mut block,
    )
}

// Examples c, d and e of document 01, example d with slot 1 absent too; zeros, which code to zeros, with slot 1 absent.
fn examples(rt: &impl Print) -> io::Result<()> {
    example_piece(rt, 1)?;
    example_piece(rt, 2)?;
    example_piece(rt, 3)?;
    example_piece(rt, 4)?;
    example_slots(
        rt,
        b"d",
        1,
        b"\x01\x01\x00\x00\x01\x01\x00\x22\x01\x01\x00\x36\x01\x01\x00\x5a",
    )?;
    example_slots(
        rt,
        b"d",
        1,
        b"\x00\x01\x00\x1e\x01\x01\x00\x22\x01\x01\x00\x36\x01\x01\x00\x5a",
    )?;
    example_slots(
        rt,
        b"e",
        65535,
        b"\x01\xff\xff\x1e\x01\xff\xff\x22\x01\xff\xff\x37\x01\xff\xff\x5b",
    )?;
    example_slots(
        rt,
        b"zeros",
        0,
        b"\x00\x00\x00\x00\x01\x00\x00\x00\x01\x00\x00\x00\x01\x00\x00\x00",
    )?;
    example_stripes(rt)
}

// Pieces of 0a14 in run 258, of which 1 carries number 2, and 3 number 257, with a true piece or a false one; then 2 carries another too, and nothing is
// determined. Last, slots of which 1 and 4 are of run 1 with pieces of 0a14, 2 and 3 of run 2 with pieces of 0b14: each run has its block.
fn late_examples(rt: &impl Print) -> io::Result<()> {
    example_slots(
        rt,
        b"late",
        258,
        b"\x01\x02\x00\x1e\x01\x02\x01\x22\x01\x01\x01\x36\x01\x02\x01\x5a",
    )?;
    example_slots(
        rt,
        b"late, false",
        258,
        b"\x01\x02\x00\x1f\x01\x02\x01\x22\x01\x01\x01\x37\x01\x02\x01\x5a",
    )?;
    example_slots(
        rt,
        b"too late",
        258,
        b"\x01\x02\x00\x1e\x01\x01\x02\x22\x01\x01\x01\x36\x01\x02\x01\x5a",
    )?;
    example_slots(
        rt,
        b"run 1",
        1,
        b"\x01\x01\x00\x1e\x01\x02\x00\x23\x01\x02\x00\x37\x01\x01\x00\x5a",
    )?;
    example_slots(
        rt,
        b"run 2",
        2,
        b"\x01\x01\x00\x1e\x01\x02\x00\x23\x01\x02\x00\x37\x01\x01\x00\x5a",
    )
}

// Three of seven silent, and at most t + 1 present.
fn silent_examples(rt: &impl Print) -> io::Result<()> {
    example_present(
        rt,
        b"silent",
        b"\x00\x00\x01\xff\x01\x00\x01\x5a\x00\x00\x01\xff\x01\x00\x01\xa7\x01\x00\x01\xad\x00\x00\x01\xff\x01\x00\x01\xfd",
    )?;
    example_present(
        rt,
        b"present 0",
        b"\x00\x00\x00\x00\x00\x00\x00\x00\x00\x00\x00\x00\x00\x00\x00\x00\x00\x00\x00\x00\x00\x00\x00\x00\x00\x00\x00\x00",
    )?;
    example_present(
        rt,
        b"present 1",
        b"\x01\x00\x01\x00\x00\x00\x00\x00\x00\x00\x00\x00\x00\x00\x00\x00\x00\x00\x00\x00\x00\x00\x00\x00\x00\x00\x00\x00",
    )?;
    example_present(
        rt,
        b"present 2",
        b"\x01\x00\x01\x00\x01\x00\x01\x5a\x00\x00\x00\x00\x00\x00\x00\x00\x00\x00\x00\x00\x00\x00\x00\x00\x00\x00\x00\x00",
    )?;
    example_present(
        rt,
        b"present 3",
        b"\x01\x00\x01\x00\x01\x00\x01\x5a\x01\x00\x01\x50\x00\x00\x00\x00\x00\x00\x00\x00\x00\x00\x00\x00\x00\x00\x00\x00",
    )
}

fn main(rt: HostRuntime) -> io::Result<()> {
    play_all(&rt)?;
    try_encodings(&rt)?;
    try_decodings(&rt)?;
    examples(&rt)?;
    late_examples(&rt)?;
    silent_examples(&rt)
}
