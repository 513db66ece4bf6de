// The state of a controller as bytes, for callers that keep it in a buffer of their own, as those of the static library do.
#![tactic(auto)]

ghost use Rattle.std.specs.Prelude.{◌≡◌, cond, ◌<◌, ◌≤◌, eqb, length};
ghost use Rattle.bitset.specs.Row.{rows_in};
ghost use Rattle.reconstruction.specs.Outcomes.{outcome_from};
ghost use Rattle.state_bytes.specs.State.{little_endian, widths, width_of, offset, state_length, field_bytes, state_bytes, field_in, field_number, state_in, state_of};

use protocol::State;
use reconstruction::Outcome;
use settings::Settings;

// How many fields a state has.
const FIELDS: usize = 12;

// How many bytes each field takes: n, t, k, own number, sender, next call, outcome, matrix, weak matrix, core,
// those named, run number.
const WIDTHS: [usize; FIELDS] = [8, 8, 8, 8, 8, 8, 1, 32, 32, 2, 2, 2];

// How many bytes a state takes: the sum of all widths.
const LENGTH: usize = WIDTHS[0]
    + WIDTHS[1]
    + WIDTHS[2]
    + WIDTHS[3]
    + WIDTHS[4]
    + WIDTHS[5]
    + WIDTHS[6]
    + WIDTHS[7]
    + WIDTHS[8]
    + WIDTHS[9]
    + WIDTHS[10]
    + WIDTHS[11];

// A field's number stays a number with a `requires`, as the definitions count the fields: a struct of it would be made at every turn of a loop.

// The width of field i.
fn width(i: usize) -> usize
    requires { i < length widths }
    ensures { result ≡ width_of i }
{
    WIDTHS[i]
}

// Where field i starts: the sum of the widths before it.
fn offset(i: usize) -> usize
    requires { i ≤ length widths }
    ensures { result ≡ offset i }
{
    let mut a = 0;
    for j in 0..i {
        a += width(j);
    }
    a
}

// How many bytes a state takes: the sum of all widths.
// Shut out: must-fail/last_field_left_out; must-fail/wrong_width.
pub fn length() -> usize
    ensures { result ≡ state_length }
{
    LENGTH
}

// The low bytes of x, the lowest first.
fn put(bytes: &mut [u8], x: usize)
    requires { length bytes.old ≤ 8 }
    ensures { bytes.new ≡ little_endian (length bytes.old) x }
{
    bytes.copy_from_slice(&x.to_le_bytes()[..bytes.len()]);
}

// Writes field i to as many bytes as it takes. A match on i, as `field_bytes s i` counts the fields.
#[tactic(auto, unfolding(crate::specs::State::field_bytes, crate::specs::State::width_of))]
fn put_field(bytes: &mut [u8], s: State, i: usize)
    requires { (i < length widths) × (length bytes.old ≡ width_of i) }
    ensures { bytes.new ≡ field_bytes s i }
{
    match i {
        0 => put(bytes, s.settings.n),
        1 => put(bytes, s.settings.t),
        2 => put(bytes, s.settings.k),
        3 => put(bytes, s.own),
        4 => put(bytes, s.settings.sender),
        5 => put(bytes, s.next),
        6 => put(bytes, usize::from(u8::from(s.outcome))),
        7 => bitset::write_rows(bytes, &s.matrix, 16),
        8 => bitset::write_rows(bytes, &s.weak, 16),
        9 => put(bytes, usize::from(s.core)),
        10 => put(bytes, usize::from(s.named)),
        _ => put(bytes, usize::from(s.run)),
    }
}

// The place is counted: the widths differ, so that no chunks of one size are the fields.
// Writes the fields one behind the other.
fn put_fields(bytes: &mut [u8; LENGTH], s: State)
    ensures { bytes.new ≡ state_bytes s }
{
    let mut a = 0;
    for i in 0..FIELDS {
        let e = a + width(i);
        put_field(&mut bytes[a..e], s, i);
        a = e;
    }
}

// Writes a state to a buffer of its length; nothing is written to one of another length.
// Shut out: the weak matrix for the matrix; own number and sender the other way round; the core for those named, and for the run number.
pub fn write(s: State, bytes: &mut [u8])
    ensures { bytes.new ≡ cond (eqb (length bytes.old) state_length) (state_bytes s) bytes.old }
{
    if let Some(bytes) = bytes.as_mut_array() {
        put_fields(bytes, s);
    }
}

// Field i in the bytes of a state.
fn field(bytes: &[u8; LENGTH], i: usize) -> &[u8]
    requires { i < length widths }
    ensures { result.now ≡ field_in bytes.now i }
{
    let a = offset(i);
    let e = a + width(i);
    &bytes[a..e]
}

// The number in field i, one of the first six.
fn field_number(bytes: &[u8; LENGTH], i: usize) -> usize
    requires { i < 6 }
    ensures { result ≡ field_number bytes.now i }
{
    usize::from_le_bytes(field(bytes, i).try_into().unwrap())
}

// The run number, in the two bytes of field 11.
fn run_number(bytes: &[u8; LENGTH]) -> u16
    ensures { result ≡ field_number bytes.now 11 }
{
    let f = field(bytes, 11);
    lists::word(f[0], f[1])
}

// The outcome in the one byte of field 6.
fn outcome(bytes: &[u8; LENGTH]) -> Outcome
    ensures { result ≡ outcome_from (field_number bytes.now 6) }
{
    Outcome::from(field(bytes, 6)[0])
}

// 16 rows of marks; empty ones where the bytes do not hold them.
// Shut out: the last row left empty; rows of 15 marks.
pub fn get_rows(bytes: &[u8]) -> [u16; 16]
    ensures { result ≡ rows_in bytes.now }
{
    let mut rows = [0u16; 16];
    for i in 0..16 {
        rows[i] = bitset::read_row(bytes, 16, i);
    }
    rows
}

// The state in the bytes of one.
#[tactic(auto, unfolding(crate::specs::State::state_in))]
fn state_in(bytes: &[u8; LENGTH]) -> State
    ensures { result ≡ state_in bytes.now }
{
    State {
        settings: Settings {
            n: field_number(bytes, 0),
            t: field_number(bytes, 1),
            k: field_number(bytes, 2),
            sender: field_number(bytes, 4),
        },
        own: field_number(bytes, 3),
        run: run_number(bytes),
        next: field_number(bytes, 5),
        outcome: outcome(bytes),
        matrix: get_rows(field(bytes, 7)),
        weak: get_rows(field(bytes, 8)),
        core: bitset::read_row(field(bytes, 9), 16, 0),
        named: bitset::read_row(field(bytes, 10), 16, 0),
    }
}

// The state that a buffer holds; the zero state where the buffer has another length.
// Shut out: beyond for every outcome byte past 3; n 1 where the buffer has another length; must-fail/outcome_from_another_field.
#[tactic(auto, unfolding(crate::specs::State::state_of))]
pub fn read(bytes: &[u8]) -> State
    ensures { result ≡ state_of bytes.now }
{
    match bytes.as_array() {
        Some(bytes) => state_in(bytes),
        None => protocol::zero_state(),
    }
}
