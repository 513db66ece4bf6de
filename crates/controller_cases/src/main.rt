// Drives `controller::start` and `controller::step` through every refusal of document 01 ('Turned down'; row 5 as document 02, U6, has it), one
// controller alone through whole runs, and some through their last call.
// A line `start n t k own sender run length: number state block`: the lent length, the number answered, whether the state answered is the zero
// state or the one of a run that begins, and whether the lent block is the same.
// A line `step n t k own sender next block inbox outbox: number state block outbox`: the settings and the next call of the state given, the lent
// lengths, the number answered, and whether state, block and outbox are the same after it. But for the zero state, the first one given,
// outcome, both matrices, core, row of marks and run number of the state given are set to other than zero.
// A line `run n t k own sender run heard block`: a run begins. The controller gets back what it sends: that to 1 to `heard` in slots of the run, the rest
// in slots of another one (document 02, U11). `silent` in place of a number: nothing arrives.
// A line `call c: number next outcome named run block outbox`: a step on a state whose next call is c, the number answered, the next call, outcome,
// row of marks and run number of the state answered, and all bytes of block and outbox after it. In a run it is the state that the step before
// answered, but with marks in its row: a refused step keeps them, and no other does (document 02, U1).
// A line `last n t k own sender run core inbox`: settings, run number and core of a state whose next call is the last, and all bytes of the inbox; that
// call follows. The state's row has the same marks.
// The expected output comes from the independent reference:
//     cargo run --release --bin controller_vectors > crates/controller_cases/stdout
#![tactic(auto)]

use protocol::{Refused, State};
use reconstruction::Outcome;
use settings::Settings;
use std::io;
use wire::Layout;

// n, t, k, own number, sender, run number and lent length of each start: each row of the refusal table by itself; two rows that apply, of which the
// first counts; and starts that are taken.
const STARTS: [[usize; 7]; 49] = [
    [3, 1, 1, 1, 1, 1, 2],
    [17, 1, 1, 1, 1, 256, 2],
    [0, 1, 1, 1, 1, 65535, 2],
    [18446744073709551615, 1, 1, 1, 1, 258, 2],
    [4, 0, 1, 1, 1, 1, 1],
    [4, 2, 1, 1, 1, 256, 3],
    [6, 2, 1, 1, 1, 65535, 3],
    [16, 6, 1, 1, 1, 258, 7],
    [16, 18446744073709551615, 1, 1, 1, 1, 0],
    [4, 1, 0, 1, 1, 256, 0],
    [4, 1, 129, 1, 1, 65535, 258],
    [7, 2, 129, 1, 1, 258, 387],
    [4, 1, 18446744073709551615, 1, 1, 1, 0],
    [4, 1, 1, 0, 1, 256, 2],
    [4, 1, 1, 5, 1, 65535, 2],
    [4, 1, 1, 18446744073709551615, 1, 258, 2],
    [4, 1, 1, 0, 0, 1, 2],
    [16, 5, 1, 1, 17, 256, 6],
    [4, 1, 1, 1, 5, 65535, 2],
    [4, 1, 1, 1, 18446744073709551615, 258, 2],
    [4, 1, 1, 1, 1, 1, 0],
    [4, 1, 1, 1, 1, 256, 1],
    [4, 1, 1, 1, 1, 65535, 3],
    [4, 1, 1, 1, 0, 258, 3],
    [7, 2, 128, 7, 7, 1, 383],
    [7, 2, 128, 7, 7, 256, 385],
    [3, 0, 1, 1, 1, 65535, 1],
    [3, 1, 0, 1, 1, 258, 0],
    [3, 1, 1, 0, 1, 1, 2],
    [3, 1, 1, 1, 4, 256, 2],
    [3, 1, 1, 1, 1, 65535, 3],
    [4, 0, 129, 1, 1, 258, 129],
    [4, 0, 1, 0, 1, 1, 1],
    [4, 0, 1, 1, 5, 256, 1],
    [4, 0, 1, 1, 1, 65535, 2],
    [4, 1, 0, 0, 1, 258, 0],
    [4, 1, 0, 1, 5, 1, 0],
    [4, 1, 0, 1, 1, 256, 1],
    [4, 1, 1, 0, 5, 65535, 2],
    [4, 1, 1, 0, 1, 258, 3],
    [4, 1, 1, 1, 5, 1, 3],
    [3, 0, 0, 0, 4, 256, 9],
    [4, 1, 1, 1, 1, 0, 2],
    [4, 1, 1, 4, 4, 1, 2],
    [7, 2, 128, 7, 1, 256, 384],
    [16, 1, 128, 16, 16, 65535, 256],
    [16, 5, 128, 1, 16, 513, 768],
    [4, 1, 1, 1, 0, 0, 2],
    [16, 5, 128, 16, 0, 65535, 768],
];

// n, t, k, own number, sender and next call of the state given, and the lent lengths of block, inbox and outbox: settings out of range; the
// next call out of range, and the run finished; two rows that apply, 7 before 8 before 6.
const STEPS: [[usize; 9]; 43] = [
    [3, 1, 1, 1, 1, 1, 2, 0, 20],
    [17, 1, 1, 1, 1, 1, 2, 0, 20],
    [18446744073709551615, 1, 1, 1, 1, 1, 2, 0, 20],
    [4, 0, 1, 1, 1, 1, 2, 0, 20],
    [4, 2, 1, 1, 1, 1, 2, 0, 20],
    [4, 18446744073709551615, 1, 1, 1, 1, 2, 0, 20],
    [4, 1, 0, 1, 1, 1, 2, 0, 20],
    [4, 1, 129, 1, 1, 1, 2, 0, 20],
    [4, 1, 18446744073709551615, 1, 1, 1, 2, 0, 20],
    [4, 1, 1, 0, 1, 1, 2, 0, 20],
    [4, 1, 1, 5, 1, 1, 2, 0, 20],
    [4, 1, 1, 18446744073709551615, 1, 1, 2, 0, 20],
    [4, 1, 1, 0, 0, 1, 2, 0, 20],
    [16, 5, 3, 1, 17, 1, 18, 0, 336],
    [4, 1, 1, 1, 5, 1, 2, 0, 20],
    [4, 1, 1, 1, 18446744073709551615, 1, 2, 0, 20],
    [4, 1, 1, 1, 1, 0, 2, 0, 0],
    [4, 1, 1, 1, 1, 14, 2, 0, 0],
    [4, 1, 1, 1, 1, 18446744073709551615, 2, 0, 0],
    [4, 1, 1, 1, 1, 13, 2, 0, 0],
    [16, 1, 1, 1, 1, 14, 2, 0, 0],
    [16, 1, 1, 1, 1, 13, 2, 0, 0],
    [7, 2, 2, 7, 1, 0, 6, 0, 0],
    [7, 2, 2, 7, 1, 17, 6, 0, 0],
    [7, 2, 2, 7, 1, 16, 6, 0, 0],
    [16, 5, 3, 1, 16, 26, 18, 0, 0],
    [16, 5, 3, 1, 16, 25, 18, 0, 0],
    [4, 1, 1, 1, 0, 14, 2, 0, 0],
    [4, 1, 1, 1, 0, 13, 2, 0, 0],
    [3, 1, 1, 1, 1, 13, 2, 0, 0],
    [4, 1, 0, 1, 1, 13, 0, 0, 0],
    [4, 1, 1, 5, 1, 13, 2, 0, 0],
    [4, 1, 1, 1, 5, 13, 2, 0, 0],
    [4, 0, 1, 1, 1, 10, 1, 0, 0],
    [3, 1, 1, 1, 1, 0, 2, 0, 0],
    [3, 1, 1, 1, 1, 1, 3, 1, 21],
    [4, 1, 1, 1, 1, 0, 3, 0, 0],
    [4, 1, 1, 1, 1, 14, 2, 1, 1],
    [4, 1, 1, 1, 1, 13, 3, 0, 0],
    [4, 1, 1, 1, 1, 13, 2, 1, 0],
    [4, 1, 1, 1, 1, 13, 2, 16, 0],
    [4, 1, 1, 1, 1, 13, 2, 0, 1],
    [4, 1, 1, 1, 1, 13, 9, 9, 9],
];

// Settings of 4, 7 and 16 controllers, with sender 1.
const SMALL: Settings = Settings {
    n: 4,
    t: 1,
    k: 1,
    sender: 1,
};

const SEVEN: Settings = Settings {
    n: 7,
    t: 2,
    k: 2,
    sender: 1,
};

const SIXTEEN: Settings = Settings {
    n: 16,
    t: 5,
    k: 3,
    sender: 1,
};

// The row of marks of states that are given: controllers 1, 6, 11 and 16.
const MARKS: u16 = 33825;

// The library's functions, each called in one place.
fn begin(s: State, block: &[u8]) -> Answer {
    answered(controller::start(s.settings, s.own, s.run, block))
}

fn advance(s: State, block: &mut [u8], inbox: &[u8], outbox: &mut [u8]) -> Answer {
    answered(controller::step(s, block, inbox, outbox))
}

fn block_length(s: State) -> usize {
    wire::block_length(s.settings.n, s.settings.t, s.settings.k)
}

fn inbox_length(s: State) -> usize {
    wire::inbox_length(s.settings.n, s.settings.t, s.settings.k, s.next)
}

fn outbox_length(s: State) -> usize {
    wire::outbox_length(s.settings.n, s.settings.t, s.settings.k, s.next)
}

// What the slots of the next call's outbox are.
fn layout(s: State) -> Layout {
    wire::round_layout(s.run, s.settings.n, s.settings.t, s.settings.k, s.next)
}

fn call_count(t: usize) -> usize {
    wire::calls(t)
}

// What is printed of an answer: the number, 0 where nothing is refused, and the state.
#[derive(Clone, Copy)]
struct Answer {
    number: u8,
    state: State,
}

fn answered(r: Result<State, Refused>) -> Answer {
    match r {
        Ok(state) => Answer { number: 0, state },
        Err(Refused { refusal, state }) => Answer {
            number: u8::from(refusal),
            state,
        },
    }
}

fn same(rt: &impl Print, yes: bool) -> io::Result<()> {
    cases::text(rt, if yes { b" same" } else { b" changed" })
}

// The byte that a lent slice has at index p before a call; no byte is 00 or 01.
fn pattern(p: usize) -> u8 {
    (p % 251 + 3) as u8
}

fn fill(s: &mut [u8]) {
    for (p, x) in s.iter_mut().enumerate() {
        *x = pattern(p);
    }
}

fn is_filled(s: &[u8]) -> bool {
    s.iter().enumerate().all(|(p, x)| *x == pattern(p))
}

// A state with every other field set.
fn given(settings: Settings, own: usize, next: usize) -> State {
    State {
        outcome: Outcome::Beyond,
        matrix: [
            1, 2, 4, 8, 16, 32, 64, 128, 256, 512, 1024, 2048, 4096, 8192, 16384, 32768,
        ],
        weak: [65535, 2, 3, 4, 5, 6, 7, 8, 9, 10, 11, 12, 13, 14, 15, 65534],
        core: 43981,
        named: MARKS,
        ..protocol::initial(settings, own, 40961, next)
    }
}

// A name and the settings.
fn print_settings(rt: &impl Print, name: &[u8], s: State) -> io::Result<()> {
    let Settings { n, t, k, sender } = s.settings;
    cases::numbers(rt, name, &[n, t, k, s.own, sender])
}

// Which state a start with these settings answered.
fn print_started(rt: &impl Print, s: State, r: State) -> io::Result<()> {
    if r == protocol::zero_state() {
        cases::text(rt, b" zero")
    } else if r == s {
        cases::text(rt, b" begun")
    } else {
        cases::text(rt, b" other")
    }
}

// A start with the settings of s.
fn start(rt: &impl Print, s: State, length: usize) -> io::Result<()> {
    let mut space = [0u8; 4096];
    let b = cases::fitting(length, &space);
    let block = &mut space[..b];
    fill(block);
    let r = begin(s, block);
    print_settings(rt, b"start", s)?;
    cases::numbers(rt, b"", &[s.run as usize, block.len()])?;
    cases::numbers(rt, b":", &[r.number])?;
    print_started(rt, s, r.state)?;
    same(rt, is_filled(block))?;
    cases::newline(rt)
}

// A step on s with lent lengths b, i and o, on lent bytes that are filled.
fn step(rt: &impl Print, s: State, b: usize, i: usize, o: usize) -> io::Result<()> {
    let mut block_space = [0u8; 4096];
    let mut inbox_space = [0u8; 4096];
    let mut outbox_space = [0u8; 4096];
    let b = cases::fitting(b, &block_space);
    let i = cases::fitting(i, &inbox_space);
    let o = cases::fitting(o, &outbox_space);
    let block = &mut block_space[..b];
    let inbox = &mut inbox_space[..i];
    let outbox = &mut outbox_space[..o];
    fill(block);
    fill(inbox);
    fill(outbox);
    print_settings(rt, b"step", s)?;
    cases::numbers(rt, b"", &[s.next, b, i, o])?;
    let r = advance(s, block, inbox, outbox);
    cases::numbers(rt, b":", &[r.number])?;
    same(rt, s == r.state)?;
    same(rt, is_filled(block))?;
    same(rt, is_filled(outbox))?;
    cases::newline(rt)
}

// One byte more.
fn longer(x: usize) -> usize {
    x.wrapping_add(1)
}

// One byte less; of no byte, two more.
fn shorter(x: usize) -> usize {
    x.checked_sub(1).unwrap_or(2)
}

// Each lent length of a call too long and too short by one byte, and all three.
fn lengths_at(rt: &impl Print, settings: Settings, c: usize) -> io::Result<()> {
    let s = given(settings, settings.n, c);
    let b = block_length(s);
    let i = inbox_length(s);
    let o = outbox_length(s);
    step(rt, s, longer(b), i, o)?;
    step(rt, s, shorter(b), i, o)?;
    step(rt, s, b, longer(i), o)?;
    step(rt, s, b, shorter(i), o)?;
    step(rt, s, b, i, longer(o))?;
    step(rt, s, b, i, shorter(o))?;
    step(rt, s, longer(b), shorter(i), longer(o))
}

fn lengths(rt: &impl Print, settings: Settings) -> io::Result<()> {
    for c in 1..=call_count(settings.t) {
        lengths_at(rt, settings, c)?;
    }
    Ok(())
}

fn starts(rt: &impl Print) -> io::Result<()> {
    for &[n, t, k, own, sender, run, length] in &STARTS {
        let settings = Settings { n, t, k, sender };
        start(
            rt,
            protocol::initial(settings, own, cases::word(run), 1),
            length,
        )?;
    }
    Ok(())
}

fn steps(rt: &impl Print) -> io::Result<()> {
    for &[n, t, k, own, sender, next, b, i, o] in &STEPS {
        let settings = Settings { n, t, k, sender };
        step(rt, given(settings, own, next), b, i, o)?;
    }
    Ok(())
}

// What call c answered, and what it left in block and outbox.
fn print_call(rt: &impl Print, c: usize, r: Answer, block: &[u8], outbox: &[u8]) -> io::Result<()> {
    let s = r.state;
    cases::numbers(rt, b"call", &[c])?;
    cases::numbers(rt, b":", &[r.number as usize, s.next])?;
    cases::text(rt, b" ")?;
    cases::text(rt, s.outcome.word())?;
    cases::numbers(rt, b"", &[s.named, s.run])?;
    cases::hex(rt, block)?;
    cases::hex(rt, outbox)?;
    cases::newline(rt)
}

// Of slot j of the outbox of s, what arrives in slot j: the message, in a slot of another run where j is above `heard`.
fn deliver_slot(mail: &mut [u8], outbox: &[u8], s: State, heard: usize, j: usize) {
    let own = layout(s);
    let m = wire::message(outbox, own, j);
    let run = if j <= heard {
        own.run
    } else {
        cases::other_run(own.run, s.next)
    };
    wire::send_one(mail, wire::layout_with(run, own.length), j, m);
}

// What arrives of the outbox of s, for four controllers: all that is sent, or nothing.
fn deliver(mail: &mut [u8], outbox: &[u8], s: State, heard: Option<usize>) {
    mail.fill(0);
    if let Some(heard) = heard {
        for j in 1..=4 {
            deliver_slot(mail, outbox, s, heard, j);
        }
    }
}

// A step of a run, on the mail that the one before left, the lengths being those of the next call; the outbox is lent with other bytes. It leaves what
// arrives.
fn call(
    rt: &impl Print,
    s: State,
    heard: Option<usize>,
    block: &mut [u8],
    mail: &mut [u8],
) -> io::Result<State> {
    let mut space = [0u8; 4096];
    let o = cases::fitting(outbox_length(s), &space);
    let outbox = &mut space[..o];
    fill(outbox);
    let i = cases::fitting(inbox_length(s), mail);
    let r = advance(s.with_named(MARKS), block, &mail[..i], outbox);
    print_call(rt, s.next, r, block, outbox)?;
    deliver(mail, outbox, s, heard);
    Ok(r.state)
}

fn print_heard(rt: &impl Print, heard: Option<usize>) -> io::Result<()> {
    match heard {
        None => cases::text(rt, b" silent"),
        Some(heard) => cases::numbers(rt, b"", &[heard]),
    }
}

// All calls, and two more steps.
fn run(rt: &impl Print, s: State, heard: Option<usize>, block: &mut [u8]) -> io::Result<()> {
    let mut state = begin(s, block).state;
    print_settings(rt, b"run", state)?;
    cases::numbers(rt, b"", &[state.run])?;
    print_heard(rt, heard)?;
    cases::hex(rt, block)?;
    cases::newline(rt)?;
    let mut mail = [0u8; 4096];
    for _ in 0..longer(longer(call_count(s.settings.t))) {
        state = call(rt, state, heard, block, &mut mail)?;
    }
    Ok(())
}

// Of four controllers the sender, with a block whose pieces are all alike, so that it marks whomever it hears.
fn run_small(rt: &impl Print, run_number: u16, heard: Option<usize>) -> io::Result<()> {
    run(
        rt,
        protocol::initial(SMALL, 1, run_number, 1),
        heard,
        &mut [10, 0],
    )
}

// Of seven controllers the sender, 2, or another.
fn run_of_seven(rt: &impl Print, own: usize, run_number: u16) -> io::Result<()> {
    let mut block = [10, 20, 30, 40, 50, 60];
    let settings = Settings { sender: 2, ..SEVEN };
    run(
        rt,
        protocol::initial(settings, own, run_number, 1),
        None,
        &mut block,
    )
}

// Without a sender (document 02, U6) the block is kept until the last call.
fn run_without_sender(rt: &impl Print) -> io::Result<()> {
    let settings = Settings { sender: 0, ..SMALL };
    run(
        rt,
        protocol::initial(settings, 3, 1, 1),
        None,
        &mut [10, 20],
    )
}

// Nobody heard; all in slots of another run, which is the same; all but controller 4; and all.
fn runs(rt: &impl Print) -> io::Result<()> {
    run_small(rt, 0, None)?;
    run_of_seven(rt, 2, 256)?;
    run_of_seven(rt, 4, 65535)?;
    run_without_sender(rt)?;
    run_small(rt, 0, Some(0))?;
    run_small(rt, 256, Some(3))?;
    run_small(rt, 65535, Some(3))?;
    run_small(rt, 258, Some(4))
}

// The state of controller 1, the sender, before its last call.
fn before_last(settings: Settings, run: u16, core: u16) -> State {
    State {
        run,
        core,
        ..given(settings, 1, call_count(settings.t))
    }
}

// The outbox of the last call has no byte.
fn last(rt: &impl Print, s: State, block: &mut [u8], inbox: &[u8]) -> io::Result<()> {
    print_settings(rt, b"last", s)?;
    cases::numbers(rt, b"", &[s.run, s.core])?;
    cases::hex(rt, inbox)?;
    cases::newline(rt)?;
    let r = advance(s, block, inbox, &mut []);
    print_call(rt, s.next, r, block, &[])
}

// n 4, t 1 and k 1.
fn last_small(rt: &impl Print, run: u16, core: u16, inbox: &[u8]) -> io::Result<()> {
    last(rt, before_last(SMALL, run, core), &mut [255; 2], inbox)
}

// Pieces of 0a14: all true; examples d and e of document 01, and d with slot 1 absent; all true, and no member of the core within n.
fn last_examples(rt: &impl Print) -> io::Result<()> {
    let lasts = [
        (
            0,
            15,
            b"\x01\x00\x00\x1e\x01\x00\x00\x22\x01\x00\x00\x36\x01\x00\x00\x5a",
        ),
        (
            1,
            15,
            b"\x01\x01\x00\x00\x01\x01\x00\x22\x01\x01\x00\x36\x01\x01\x00\x5a",
        ),
        (
            256,
            15,
            b"\x00\x00\x01\x1e\x01\x00\x01\x22\x01\x00\x01\x36\x01\x00\x01\x5a",
        ),
        (
            65535,
            15,
            b"\x01\xff\xff\x1e\x01\xff\xff\x22\x01\xff\xff\x37\x01\xff\xff\x5b",
        ),
        (
            0,
            65520,
            b"\x01\x00\x00\x1e\x01\x00\x00\x22\x01\x00\x00\x36\x01\x00\x00\x5a",
        ),
    ];
    for (run, core, inbox) in &lasts {
        last_small(rt, *run, *core, *inbox)?;
    }
    Ok(())
}

// Not one function with `last_examples`: one would take the table, and each table would be a constant with the same comment, no shorter.
// The same pieces in run 258: slot 3 is of run 2 or 257, with its true piece, or of run 2 with a false one. Then 1 and 4 are of run 513, and two pieces
// are left; then 2 is of run 0 besides, and one piece determines nothing. Last, the slots before these in run 513, in which 1 and 4 are left.
fn last_late(rt: &impl Print) -> io::Result<()> {
    let lasts = [
        (
            258,
            15,
            b"\x01\x02\x01\x1e\x01\x02\x01\x22\x01\x02\x00\x36\x01\x02\x01\x5a",
        ),
        (
            258,
            15,
            b"\x01\x02\x01\x1e\x01\x02\x01\x22\x01\x01\x01\x36\x01\x02\x01\x5a",
        ),
        (
            258,
            15,
            b"\x01\x02\x01\x1e\x01\x02\x01\x22\x01\x02\x00\x37\x01\x02\x01\x5a",
        ),
        (
            258,
            15,
            b"\x01\x01\x02\x1e\x01\x02\x01\x22\x01\x02\x01\x36\x01\x01\x02\x5a",
        ),
        (
            258,
            15,
            b"\x01\x01\x02\x1e\x01\x00\x00\x22\x01\x02\x01\x36\x01\x01\x02\x5a",
        ),
        (
            513,
            15,
            b"\x01\x01\x02\x1e\x01\x02\x01\x22\x01\x02\x01\x36\x01\x01\x02\x5a",
        ),
    ];
    for (run, core, inbox) in &lasts {
        last_small(rt, *run, *core, *inbox)?;
    }
    Ok(())
}

// Two cases, whose settings, run, core, block and inbox all differ: one function of them is `last`.
// Three stripes 0a14, each with another false value.
fn last_stripes(rt: &impl Print) -> io::Result<()> {
    last(
        rt,
        before_last(Settings { k: 3, ..SMALL }, 1, 7),
        &mut [255; 6],
        b"\x01\x01\x00\x1e\x00\x1e\x01\x01\x00\x22\x22\x00\x01\x01\x00\x36\x36\x36\x01\x01\x00\x00\x5a\x5a",
    )
}

// Four pieces of 0a141e and three silent slots, n 7 and t 2 (document 02, U2).
fn last_silent(rt: &impl Print) -> io::Result<()> {
    last(
        rt,
        before_last(Settings { k: 1, ..SEVEN }, 256, 127),
        &mut [255; 3],
        b"\x01\x00\x01\x00\x00\x00\x00\x00\x01\x00\x01\x50\x01\x00\x01\xa7\x00\x00\x00\x00\x00\x00\x00\x00\x01\x00\x01\xfd",
    )
}

fn main(rt: HostRuntime) -> io::Result<()> {
    starts(&rt)?;
    step(&rt, protocol::zero_state(), 0, 0, 0)?;
    steps(&rt)?;
    lengths(&rt, SMALL)?;
    lengths(&rt, SEVEN)?;
    lengths(&rt, SIXTEEN)?;
    runs(&rt)?;
    last_examples(&rt)?;
    last_late(&rt)?;
    last_stripes(&rt)?;
    last_silent(&rt)
}
