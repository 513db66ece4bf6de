// The lengths of messages, blocks, inboxes and outboxes, by one table of factors (document 01, 'Rounds'). n, t and k stay parameters: the clauses of
// `block_length` and the others name them, and so does the C interface. 0 where there is no round, as `message_length` and the others of specs/ have it.
ghost use Rattle.std.specs.Prelude.{◌≡◌, MatchOption};
ghost use Rattle.settings.specs.Valid.{Coded};
ghost use Rattle.wire.specs.Length.{factors_of, row_length, in_settings, block_size, kind_length, kind_layout, round_layout, message_length, inbox_length, outbox_length};

use crate::{Layout, Round, layout_with, round_kind, slot};

// The factors of k × (t + 1), k, n and 1 in the message length, a row for each kind of round.
const FACTORS: [[usize; 4]; 8] = [
    [1, 0, 0, 0],
    [0, 2, 0, 0],
    [0, 0, 0, 2],
    [0, 0, 2, 0],
    [0, 0, 4, 0],
    [0, 0, 2, 0],
    [0, 1, 0, 0],
    [0, 1, 0, 0],
];

// The row of the table for a kind of round; None outside the rounds.
fn factors(kind: Round) -> Option<&'static [usize; 4]>
    ensures { MatchOption result (kind ≡ Round.Outside) (λ row. row.now ≡ factors_of kind) }
{
    FACTORS.get((kind as usize).checked_sub(1)?)
}

// The length of a message of a kind of round.
fn row_length(kind: Round, n: usize, t: usize, k: usize) -> usize
    requires { Coded n t k }
    ensures { result ≡ row_length kind n t k }
{
    match factors(kind) {
        Some(row) => row[0] * (k * (t + 1)) + row[1] * k + row[2] * n + row[3],
        None => 0,
    }
}

// The length of a message of a kind of round; 0 outside the settings.
fn kind_length(kind: Round, n: usize, t: usize, k: usize) -> usize
    ensures { result ≡ kind_length kind n t k }
{
    match settings::lengths_refusal(n, t, k) {
        Ok(()) => row_length(kind, n, t, k),
        Err(_) => 0,
    }
}

// The length of a block; 0 outside the settings.
// Shut out: k × (t + 2); k outside the settings.
#[tactic(auto, unfolding(crate::specs::Length::block_size, crate::specs::Length::kind_length, crate::specs::Length::row_length))]
pub fn block_length(n: usize, t: usize, k: usize) -> usize
    ensures { result ≡ block_size n t k }
{
    kind_length(Round::Block, n, t, k)
}

// The layout of the slots of a kind of round in the run `run`; messages of length 0 outside the settings.
// Shut out: messages of a block, whatever the kind; length 1 outside the settings; run 0, whatever is given; must-fail/wrong_factor.
pub fn kind_layout(run: u16, kind: Round, n: usize, t: usize, k: usize) -> Layout
    ensures { result ≡ kind_layout run kind n t k }
{
    layout_with(run, kind_length(kind, n, t, k))
}

// The layout of the slots of round c of the run `run`.
// Shut out: that of round t; k and t the other way round; run 0, whatever is given.
pub fn round_layout(run: u16, n: usize, t: usize, k: usize, c: usize) -> Layout
    ensures { result ≡ round_layout run n t k c }
{
    kind_layout(run, round_kind(t, c), n, t, k)
}

// The length of a message of round c; 0 outside the settings and rounds.
// Shut out: that of round t; the width of a slot.
pub fn message_length(n: usize, t: usize, k: usize, c: usize) -> usize
    ensures { result ≡ message_length n t k c }
{
    kind_length(round_kind(t, c), n, t, k)
}

// The length of the outbox that call c is lent: n slots; 0 for the last call and outside the settings and calls.
// Shut out: slots without their header; 1 where there is no round.
pub fn outbox_length(n: usize, t: usize, k: usize, c: usize) -> usize
    ensures { result ≡ outbox_length n t k c }
{
    let len = message_length(n, t, k, c);
    if len == 0 {
        0
    } else {
        n * (slot::HEADER + len)
    }
}

// The length of the inbox that call c is lent: n slots; 0 for the first call and outside the settings and calls.
// Shut out: the box of round c; slots without their header.
pub fn inbox_length(n: usize, t: usize, k: usize, c: usize) -> usize
    ensures { result ≡ inbox_length n t k c }
{
    outbox_length(n, t, k, c.saturating_sub(1))
}
