// What the static library's functions do: those of the crates below over numbers and byte slices, with the state as bytes in a lent buffer.
// The crate boards_c exports them to C under the same names. Here are a run and its lengths; the code and the star by themselves are in code.rt.
// The C interface (include/potekawhi.h) needs numbers for refusals and outcomes, 0 for what there is none of, and each setting by itself.
#![tactic(auto)]

mod code;

ghost use Rattle.std.specs.Prelude.{◌≡◌, ◌≢◌, cond, length, MatchResult};
ghost use Rattle.settings.specs.declared.Refusal.TheVariants.{Length};
ghost use Rattle.settings.specs.Refusal.{outside};
ghost use Rattle.settings.specs.Number.{number_of};
ghost use Rattle.wire.specs.Round.{call_count};
ghost use Rattle.wire.specs.Length.{block_size, message_length, inbox_length, outbox_length};
ghost use Rattle.wire.specs.Slot.{layout_with, message_of, offset_of};
ghost use Rattle.state_bytes.specs.State.{state_length, state_of};
ghost use Rattle.boards.specs.Boards.{returned, start_bytes, returned_step, step_bytes, outcome_in, named_in, final_bytes};
ghost use Rattle.boards.specs.Steps.{outcome_or_row};

pub use code::{
    potekawhi_decode, potekawhi_encode, potekawhi_missing_pairs, potekawhi_star,
    potekawhi_star_of_pairs,
};
use protocol::State;
use reconstruction::Outcome;
use settings::{Refusal, Settings};

// The number that C is given for an answer: 0, or that of the row.
pub(crate) fn row_number(answer: Result<(), Refusal>) -> u8
    ensures { result ≡ number_of answer }
{
    match answer {
        Ok(()) => 0,
        Err(refusal) => refusal.into(),
    }
}

// Whether a lent list has the stated length.
pub(crate) fn fits(bytes: &[u8], stated: usize) -> Result<(), Refusal>
    ensures { MatchResult result (λ _. length bytes.now ≡ stated) (λ r. (length bytes.now ≢ stated) × (r ≡ Length)) }
{
    if bytes.len() == stated {
        Ok(())
    } else {
        Err(Refusal::Length)
    }
}

// The state in lent bytes.
fn state_in(bytes: &[u8]) -> Result<State, Refusal>
    ensures { MatchResult result (λ s. (length bytes.now ≡ state_length) × (s ≡ state_of bytes.now)) (λ r. (length bytes.now ≢ state_length) × (r ≡ Length)) }
{
    fits(bytes, state_bytes::length())?;
    Ok(state_bytes::read(bytes))
}

// Start, with the refusal itself.
#[tactic(auto, unfolding(crate::specs::Boards::start_bytes))]
fn start(
    settings: Settings,
    own: usize,
    run: u16,
    block: &[u8],
    state: &mut [u8],
) -> Result<(), Refusal>
    ensures { returned (number_of result) state.new ≡ start_bytes settings own run (length block.now) state.old }
{
    fits(state, state_bytes::length())?;
    let fresh = controller::start(settings, own, run, block).map_err(|refused| refused.refusal)?;
    state_bytes::write(fresh, state);
    Ok(())
}

// Start of the run `run`: the number, and the state to the lent bytes. Refused: no lent byte changes.
// Shut out: own number and sender the other way round; run 0, whatever is given; 6 whatever start answers; must-fail/refused_start_written.
pub fn potekawhi_start(
    n: usize,
    t: usize,
    k: usize,
    own: usize,
    sender: usize,
    run: u16,
    block: &[u8],
    state: &mut [u8],
) -> u8
    ensures { returned result state.new ≡ start_bytes (record { n = n; t = t; k = k; sender = sender }) own run (length block.now) state.old }
{
    let settings = Settings { n, t, k, sender };
    row_number(start(settings, own, run, block, state))
}

// A step, with the refusal itself.
#[tactic(auto, unfolding(crate::specs::Boards::step_bytes, crate::specs::Boards::step_returned))]
fn step(state: &mut [u8], block: &mut [u8], inbox: &[u8], outbox: &mut [u8]) -> Result<(), Refusal>
    ensures { returned_step (number_of result) state.new block.new outbox.new ≡ step_bytes state.old block.old inbox.now outbox.old }
{
    let before = state_in(state)?;
    let after = controller::step(before, block, inbox, outbox).map_err(|refused| refused.refusal)?;
    state_bytes::write(after, state);
    Ok(())
}

// One step on the state in the lent bytes. Refused: no lent byte changes.
// Shut out: block and outbox the other way round; 6 for a step carried out.
pub fn potekawhi_step(state: &mut [u8], block: &mut [u8], inbox: &[u8], outbox: &mut [u8]) -> u8
    ensures { returned_step result state.new block.new outbox.new ≡ step_bytes state.old block.old inbox.now outbox.old }
{
    row_number(step(state, block, inbox, outbox))
}

// The number of the next call; 0 where the state has another length.
// Shut out: the own number; n.
pub fn potekawhi_next_call(state: &[u8]) -> usize
    ensures { result ≡ (state_of state.now).next }
{
    state_bytes::read(state).next
}

// Not one function with `row_number`: () has no number, so it would take a closure for the Ok.
// The number that C is given for an outcome: its own, or that of the row.
fn outcome_number(answer: Result<Outcome, Refusal>) -> u8
    ensures { result ≡ outcome_or_row answer }
{
    match answer {
        Ok(outcome) => outcome.into(),
        Err(refusal) => refusal.into(),
    }
}

// The number of the outcome.
// Shut out: 9 where the state has another length; open whatever the state says.
#[tactic(auto, unfolding(crate::specs::Boards::outcome_in))]
pub fn potekawhi_outcome(state: &[u8]) -> u8
    ensures { result ≡ outcome_in state.now }
{
    outcome_number(state_in(state).map(|s| s.outcome))
}

// The marks of those whom the controller names; none where the state has another length.
// Shut out: the core; nobody, whatever the state says.
pub fn potekawhi_named(state: &[u8]) -> u16
    ensures { result ≡ named_in state.now }
{
    state_bytes::read(state).named
}

// The outcome, and the final block, once there is one.
#[tactic(auto, unfolding(crate::specs::Boards::final_bytes, crate::specs::Boards::outcome_in))]
fn final_block(state: &[u8], block: &[u8], out: &mut [u8]) -> Result<Outcome, Refusal>
    ensures { returned (outcome_or_row result) out.new ≡ final_bytes state.now block.now out.old }
{
    let s = state_in(state)?;
    let size = wire::block_length(s.settings.n, s.settings.t, s.settings.k);
    fits(block, size)?;
    fits(out, size)?;
    match s.outcome {
        Outcome::Open => (),
        _ => out.copy_from_slice(block),
    }
    Ok(s.outcome)
}

// The number of the outcome, and the final block, once there is one.
// Shut out: the block copied while the run is open; a final block of any length.
pub fn potekawhi_final_block(state: &[u8], block: &[u8], out: &mut [u8]) -> u8
    ensures { returned result out.new ≡ final_bytes state.now block.now out.old }
{
    outcome_number(final_block(state, block, out))
}

// The length of the message in slot j of an inbox of the run `run` with messages of `len` bytes, and to `offset` where it starts; 0 and 0 where there
// is none.
// Shut out: slot number and length the other way round, in the length answered; the same in the offset; run 0, whatever is given.
pub fn potekawhi_message(inbox: &[u8], run: u16, len: usize, j: usize, offset: &mut usize) -> usize
    ensures { (result ≡ length (message_of inbox.now (layout_with run len) j)) × (offset.new ≡ offset_of inbox.now (layout_with run len) j) }
{
    let layout = wire::layout_with(run, len);
    *offset = wire::offset(inbox, layout, j);
    wire::message(inbox, layout, j).len()
}

// The length of a block; 0 outside the settings.
// Shut out: k and t the other way round; n and t the other way round.
pub fn potekawhi_block_length(n: usize, t: usize, k: usize) -> usize
    ensures { result ≡ block_size n t k }
{
    wire::block_length(n, t, k)
}

// The length of a message of round c; 0 outside the settings and rounds.
// Shut out: that of round k; k and c the other way round.
pub fn potekawhi_message_length(n: usize, t: usize, k: usize, c: usize) -> usize
    ensures { result ≡ message_length n t k c }
{
    wire::message_length(n, t, k, c)
}

// The length of the inbox of call c; 0 for the first call and outside the settings and calls.
// Shut out: the length of the outbox; that of the inbox of call t.
pub fn potekawhi_inbox_length(n: usize, t: usize, k: usize, c: usize) -> usize
    ensures { result ≡ inbox_length n t k c }
{
    wire::inbox_length(n, t, k, c)
}

// The length of the outbox of call c; 0 for the last call and outside the settings and calls.
// Shut out: the length of the inbox; that of the outbox of call n.
pub fn potekawhi_outbox_length(n: usize, t: usize, k: usize, c: usize) -> usize
    ensures { result ≡ outbox_length n t k c }
{
    wire::outbox_length(n, t, k, c)
}

// How many calls a run has; 0 for a t outside 1 .. 5.
// Shut out: the number of rounds; the phase of round t.
pub fn potekawhi_calls(t: usize) -> usize
    ensures { result ≡ cond (outside 1 5 t) 0 (call_count t) }
{
    wire::calls(t)
}
