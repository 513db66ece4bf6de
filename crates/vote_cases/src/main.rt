// Plays votes of 4, 7, 10 and 16 controllers, call 4 and rounds 3p + 1 to 3p + 3, on inboxes and outboxes of bytes through `phase_king`: faulty
// kings, two_faced and silent controllers, slots of another run (document 02, U11), starting bits that are split. For each vote: a line with n, t, the
// choice of faulty controllers, the seed and the run number; a line for each round, from 3 on, with a digest of all matrices that the correct
// controllers then have; a line for each correct controller with its number and the digest of its last matrix. The expected output comes from the
// independent reference:
//     cargo run --release --bin vote_vectors > crates/vote_cases/stdout
#![tactic(auto)]

ghost use Rattle.std.specs.Prelude.{◌<◌, ◌≤◌};

use phase_king::{Held, Seen};
use std::{array, io};
use wire::{Layout, Round};

// Which controllers are faulty: nobody, the first t, the last t, or every third from index 1 on.
#[derive(Clone, Copy)]
enum Faults {
    Nobody,
    First,
    Last,
    Thirds,
}

const FAULTS: [Faults; 4] = [Faults::Nobody, Faults::First, Faults::Last, Faults::Thirds];

// How a faulty controller behaves: silent, all ones to every other receiver and zeros to the rest, any bytes, any bytes or absent, any bytes to every
// other receiver in a slot of another run.
#[derive(Clone, Copy, PartialEq, Eq)]
enum Manner {
    Silent,
    TwoFaced,
    Bytes,
    OftenAbsent,
    OtherRun,
}

const MANNERS: [Manner; 5] = [
    Manner::Silent,
    Manner::TwoFaced,
    Manner::Bytes,
    Manner::OftenAbsent,
    Manner::OtherRun,
];

// A vote: what is not chosen comes from the seed.
#[derive(Clone, Copy)]
struct Setup {
    n: usize,
    t: usize,
    faults: Faults,
    seed: u64,
    ghost few: { n ≤ 16 },
    ghost tolerated: { t ≤ 5 },
}

impl Setup {
    // 16 bits for a purpose or round c, two controllers and a place.
    fn draw(self, c: usize, i: usize, j: usize, b: usize) -> usize {
        cases::draw(cases::mix(cases::next(self.seed), c as u64), i, j, b)
    }

    fn is_faulty(self, i: usize) -> bool {
        match self.faults {
            Faults::Nobody => false,
            Faults::First => i < self.t,
            Faults::Last => i < self.n && self.n - i <= self.t,
            Faults::Thirds => cases::is_third(self.t, i),
        }
    }

    // The run number: one of four, each with each choice of faulty controllers.
    fn run_number(self) -> u16 {
        let x = (self.seed % 16) as usize;
        cases::some_run(x + x / 4)
    }

    fn manner(self, i: usize) -> Manner {
        MANNERS[self.draw(0, i, 0, 0) % 5]
    }

    // A row that all start with but for about an eighth of the bits.
    fn scattered_row(self, j: usize, r: usize) -> u16 {
        let all = cases::word(self.draw(500, 0, 0, r));
        let flips = cases::word(self.draw(501, j, 0, r))
            & cases::word(self.draw(502, j, 0, r))
            & cases::word(self.draw(503, j, 0, r));
        all ^ flips
    }
}

// What a controller holds. Controllers of a vote: those with an index from n on are not used.
#[derive(Clone, Copy)]
struct Controller {
    held: Held,
    seen: Seen,
}

// The outboxes. 1072 bytes hold 16 slots of the longest message.
type Outboxes = [[u8; 1072]; 16];

// Round c of a vote, and the layout of its slots.
#[derive(Clone, Copy)]
struct Turn {
    vote: Setup,
    c: usize,
    layout: Layout,
}

// An index below 16 stays a number with a `requires`: a struct of it would be made at every turn of a loop.

impl Turn {
    fn new(vote: Setup, c: usize) -> Turn {
        let layout = wire::round_layout(vote.run_number(), vote.n, vote.t, 1, c);
        Turn { vote, c, layout }
    }

    fn kind(self) -> Round {
        wire::round_kind(self.vote.t, self.c)
    }

    fn is_present(self, i: usize, j: usize) -> bool {
        match self.vote.manner(i) {
            Manner::Silent => false,
            Manner::OftenAbsent => self.vote.draw(self.c, i, j, 1000) % 2 == 0,
            _ => true,
        }
    }

    fn fault_byte(self, i: usize, j: usize, b: usize) -> u8 {
        if self.vote.manner(i) != Manner::TwoFaced {
            return cases::byte(self.vote.draw(self.c, i, j, b));
        }
        if j % 2 == 0 { 0 } else { 255 }
    }

    // What a faulty controller's slot to j is.
    fn fault_layout(self, i: usize, j: usize) -> Layout {
        if self.vote.manner(i) == Manner::OtherRun && j % 2 == 1 {
            return wire::layout_with(
                cases::other_run(self.layout.run, self.c),
                self.layout.length,
            );
        }
        self.layout
    }

    // From a faulty controller.
    fn from_faulty(self, inbox: &mut [u8], i: usize, j: usize)
        requires { i < 16 }
    {
        if self.is_present(i, j) {
            let m: [u8; 64] = array::from_fn(|b| self.fault_byte(i, j, b));
            let end = cases::fitting(self.layout.length, &m);
            wire::send_one(inbox, self.fault_layout(i, j), i + 1, &m[..end]);
        }
    }

    // The inbox of index j: from a correct controller, what its outbox has for j.
    fn gather(self, inbox: &mut [u8], boxes: &Outboxes, j: usize)
        requires { j < 16 }
    {
        for i in 0..self.vote.n {
            if self.vote.is_faulty(i) {
                self.from_faulty(inbox, i, j);
            } else {
                let m = wire::message(&boxes[i], self.layout, j + 1);
                wire::send_one(inbox, self.layout, i + 1, m);
            }
        }
    }

    // Call 4. With an odd seed the vote starts from other matrices.
    fn first_rows(self, inbox: &[u8], j: usize) -> [u16; 16] {
        let vote = self.vote;
        if vote.seed % 2 == 0 {
            phase_king::collect(inbox, self.layout, vote.n).rows
        } else {
            array::from_fn(|r| vote.scattered_row(j, r))
        }
    }

    // The call of index j after the round. The match is by the round's kind; each arm is another function of the library.
    fn call(self, inbox: &[u8], own: &mut Controller, j: usize) {
        let Turn { vote, c, layout } = self;
        match self.kind() {
            Round::Marks => {
                let rows = self.first_rows(inbox, j);
                own.held.rows = rows;
            }
            Round::Matrix => own.seen = phase_king::tally(inbox, layout, vote.n, vote.t),
            Round::Seen => own.held = phase_king::hold(inbox, layout, vote.n, vote.t),
            Round::King => {
                let Held { rows, weak } = own.held;
                let settled = phase_king::settle(
                    &rows,
                    &weak,
                    inbox,
                    layout,
                    vote.n,
                    wire::phase(c),
                );
                let rows = settled.rows;
                own.held.rows = rows;
            }
            _ => {}
        }
    }

    // The call of index j after the round, if it is correct. An absent slot holds no 01.
    fn receive(self, own: &mut Controller, boxes: &Outboxes, j: usize)
        requires { j < 16 }
    {
        if self.vote.is_faulty(j) {
            return;
        }
        let mut inbox = [cases::byte(self.c % 128 * 2); 4096];
        self.gather(&mut inbox, boxes, j);
        self.call(&inbox, own, j);
    }

    // The marks of index i to all, bits past n too.
    fn emit_marks(self, outbox: &mut [u8], i: usize) {
        let x = self.vote.draw(3, i, 0, 0);
        let m = [cases::byte(x), cases::byte(x / 256)];
        wire::send_all(outbox, self.layout, self.vote.n, &m);
    }

    // What index i sends in the round. The match is by the round's kind; each arm is another function of the library.
    fn emit(self, own: &Controller, outbox: &mut [u8], i: usize)
        requires { i < 16 }
    {
        let Turn { vote, c, layout } = self;
        let Held { rows, .. } = own.held;
        let Seen { zeros, ones } = own.seen;
        match self.kind() {
            Round::Marks => self.emit_marks(outbox, i),
            Round::Matrix => phase_king::send_matrix(outbox, layout, &rows, vote.n),
            Round::Seen => phase_king::send_seen(outbox, layout, &zeros, &ones, vote.n),
            Round::King => phase_king::send_as_king(
                outbox,
                layout,
                i + 1,
                wire::phase(c),
                &rows,
                vote.n,
            ),
            _ => {}
        }
    }

    // The outbox of index i in the round.
    fn send(self, own: &Controller, outbox: &mut [u8; 1072], i: usize)
        requires { i < 16 }
    {
        let size = wire::outbox_length(self.vote.n, self.vote.t, 1, self.c);
        if size <= 1072 {
            self.emit(own, &mut outbox[..size], i);
        }
    }
}

fn print_digest(rt: &impl Print, name: &[u8], number: usize, d: u64) -> io::Result<()> {
    cases::numbers(rt, name, &[number])?;
    cases::end_digest(rt, d)
}

// The digest of d and one matrix of each controller.
fn digest_each<F: Fn(&Controller) -> [u16; 16]>(d: u64, state: &[Controller; 16], rows: F) -> u64
    requires { (f : F) (x : _) → F.pre f x }
{
    state.iter().fold(d, |d, own| cases::digest(d, &rows(own)))
}

// The digest of all matrices: those held, the weak ones, the zeros, the ones.
fn digest(state: &[Controller; 16]) -> u64 {
    let d = digest_each(0, state, |own| own.held.rows);
    let d = digest_each(d, state, |own| own.held.weak);
    let d = digest_each(d, state, |own| own.seen.zeros);
    digest_each(d, state, |own| own.seen.ones)
}

fn round(
    rt: &impl Print,
    turn: Turn,
    state: &mut [Controller; 16],
    boxes: &mut Outboxes,
) -> io::Result<()> {
    for i in 0..turn.vote.n {
        turn.send(&state[i], &mut boxes[i], i);
    }
    for j in 0..turn.vote.n {
        turn.receive(&mut state[j], boxes, j);
    }
    print_digest(rt, b"round", turn.c, digest(state))
}

fn print_setup(rt: &impl Print, vote: Setup) -> io::Result<()> {
    let run = vote.run_number();
    cases::numbers(
        rt,
        b"vote",
        &[
            vote.n,
            vote.t,
            vote.faults as usize,
            vote.seed as usize,
            run as usize,
        ],
    )?;
    cases::newline(rt)
}

fn play(rt: &impl Print, vote: Setup) -> io::Result<()> {
    print_setup(rt, vote)?;
    let none = [0u16; 16];
    let mut state = [Controller {
        held: Held {
            rows: none,
            weak: none,
        },
        seen: Seen {
            zeros: none,
            ones: none,
        },
    }; 16];
    let mut boxes = [[0u8; 1072]; 16];
    for c in 3..3 * vote.t + 7 {
        round(rt, Turn::new(vote, c), &mut state, &mut boxes)?;
    }
    for i in 0..vote.n {
        if !vote.is_faulty(i) {
            print_digest(
                rt,
                b"controller",
                i + 1,
                cases::digest(0, &state[i].held.rows),
            )?;
        }
    }
    Ok(())
}

// Each choice of faulty controllers with four seeds.
fn plays(rt: &impl Print, n: usize, t: usize) -> io::Result<()>
    requires { (n ≤ 16) × (t ≤ 5) }
{
    for seed in 0..16 {
        let faults = FAULTS[(seed / 4) as usize];
        play(rt, Setup { n, t, faults, seed })?;
    }
    Ok(())
}

fn main(rt: HostRuntime) -> io::Result<()> {
    plays(&rt, 4, 1)?;
    plays(&rt, 7, 2)?;
    plays(&rt, 10, 3)?;
    plays(&rt, 16, 5)
}
