// Rounds and calls (document 01, 'The house' and 'Rounds'); the lengths of messages and boxes are in length.rt, their slots in slot.rt. Every
// function is total: no number or length makes a sum or a product overflow.
#![tactic(auto)]

mod length;
mod slot;

ghost use Rattle.std.specs.Prelude.{◌≡◌, ◌+◌, ◌*◌, ◌≤◌, cond};
ghost use Rattle.settings.specs.Refusal.{outside};
ghost use Rattle.wire.specs.Round.{round_count, call_count, phase_round, last_round, round_kind, phase_call, last_call, call_kind, phase_of};

pub use length::{
    block_length, inbox_length, kind_layout, message_length, outbox_length, round_layout,
};
pub use slot::{
    Layout, copy, holds_exactly, layout_with, message, offset, relay, send_all, send_one, silence,
};

// The kinds of rounds, numbered by their rows in document 01's table. Outside: no round of the run; a case and no None, since `round_kind` of specs/
// answers it.
#[derive(Clone, Copy)]
pub enum Round {
    Outside,
    Block,
    Pieces,
    Marks,
    Matrix,
    Seen,
    King,
    Forward,
    Rebuild,
}

// The kinds of calls, numbered by their places in document 01's list. Call c reads round c - 1 and fills round c. Outside: no call of the run; a case
// and no None, since `call_kind` of specs/ answers it.
#[derive(Clone, Copy)]
pub enum Call {
    Outside,
    Send,
    Receive,
    Compare,
    Collect,
    Tally,
    Hold,
    Settle,
    Core,
    Choose,
    Finish,
}

// 3t and some more; 0 for a t outside 1 .. 5, as C is given it.
fn steps(t: usize, more: usize) -> usize
    requires { more ≤ 9 }
    ensures { result ≡ cond (outside 1 5 t) 0 (3 * t + more) }
{
    match t {
        1..=5 => 3 * t + more,
        _ => 0,
    }
}

// How many rounds a run has; 0 for a t outside 1 .. 5.
// Shut out: 3t + 9; an answer for t 6.
#[tactic(auto, unfolding(crate::specs::Round::round_count))]
pub fn rounds(t: usize) -> usize
    ensures { result ≡ cond (outside 1 5 t) 0 (round_count t) }
{
    steps(t, 8)
}

// How many calls a run has; 0 for a t outside 1 .. 5.
// Shut out: 3t + 8; no answer for t 1.
#[tactic(auto, unfolding(crate::specs::Round::call_count))]
pub fn calls(t: usize) -> usize
    ensures { result ≡ cond (outside 1 5 t) 0 (call_count t) }
{
    steps(t, 9)
}

// The kind of round c.
// Shut out: the vote a round too short; the remainder by 2.
#[tactic(auto, unfolding(crate::specs::Round::round_kind))]
pub fn round_kind(t: usize, c: usize) -> Round
    ensures { result ≡ round_kind t c }
{
    match c {
        0 => Round::Outside,
        1 => Round::Block,
        2 => Round::Pieces,
        3 => Round::Marks,
        _ if (c - 4) / 3 <= t => phase_round(c % 3),
        _ => last_round(c - 3 * t),
    }
}

// The kind of a round of the vote, by its remainder.
fn phase_round(m: usize) -> Round
    ensures { result ≡ phase_round m }
{
    match m {
        1 => Round::Matrix,
        2 => Round::Seen,
        _ => Round::King,
    }
}

// The kind of a round after the vote, without its 3t.
fn last_round(m: usize) -> Round
    ensures { result ≡ last_round m }
{
    match m {
        7 => Round::Forward,
        8 => Round::Rebuild,
        _ => Round::Outside,
    }
}

// The kind of call c.
// Shut out: call 5 taken for call 4; 2t for 3t after the vote.
#[tactic(auto, unfolding(crate::specs::Round::call_kind))]
pub fn call_kind(t: usize, c: usize) -> Call
    ensures { result ≡ call_kind t c }
{
    match c {
        0 => Call::Outside,
        1 => Call::Send,
        2 => Call::Receive,
        3 => Call::Compare,
        4 => Call::Collect,
        _ if (c - 4) / 3 <= t => phase_call(c % 3),
        _ => last_call(c - 3 * t),
    }
}

// The kind of a call of the vote, by its remainder.
fn phase_call(m: usize) -> Call
    ensures { result ≡ phase_call m }
{
    match m {
        2 => Call::Tally,
        0 => Call::Hold,
        _ => Call::Settle,
    }
}

// The kind of a call after the vote, without its 3t.
fn last_call(m: usize) -> Call
    ensures { result ≡ last_call m }
{
    match m {
        7 => Call::Core,
        8 => Call::Choose,
        9 => Call::Finish,
        _ => Call::Outside,
    }
}

// The phase of round c, which is the number of its king; 0 before the vote, as `phase_of` of specs/ has it.
// Shut out: half of c - 1; phase 1 at 0.
#[tactic(auto, unfolding(crate::specs::Round::phase_of))]
pub fn phase(c: usize) -> usize
    ensures { result ≡ phase_of c }
{
    c.saturating_sub(1) / 3
}
