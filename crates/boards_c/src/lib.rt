// The functions that programs in C, or in Rust, link as a static library: those of the crate boards under the same names, by the C calling convention.
// include/potekawhi.h declares them for C. The C interface needs each function once more: no crate, and no theorem, can use a static library.
// Numbers for answers, and each setting by itself: as C needs them.
#![tactic(auto)]

ghost use Rattle.std.specs.Prelude.{◌≡◌, cond, length};
ghost use Rattle.settings.specs.Refusal.{outside};
ghost use Rattle.wire.specs.Round.{call_count};
ghost use Rattle.wire.specs.Length.{block_size, message_length, inbox_length, outbox_length};
ghost use Rattle.wire.specs.Slot.{layout_with, message_of, offset_of};
ghost use Rattle.state_bytes.specs.State.{state_of};
ghost use Rattle.boards.specs.Boards.{returned, start_bytes, returned_step, step_bytes, outcome_in, named_in, final_bytes, DecodeLeaves, star_bytes, pair_bytes, pair_star_bytes};
ghost use Rattle.reed_solomon.specs.Encode.{encoded, encode_of};

// Start of the run `run`: the number, and the state to the lent bytes. Refused: no lent byte changes.
#[unsafe(no_mangle)]
pub extern "C" fn potekawhi_start(
    n: usize,
    t: usize,
    k: usize,
    own: usize,
    sender: usize,
    run: u16,
    block: &[u8],
    state: &mut [u8],
) -> u8
    ensures { returned result state.new ≡ start_bytes (record { n = n; t = t; k = k; sender = sender }) own run (length block.now) state.old }
{
    boards::potekawhi_start(n, t, k, own, sender, run, block, state)
}

// One step on the state in the lent bytes. Refused: no lent byte changes.
#[unsafe(no_mangle)]
pub extern "C" fn potekawhi_step(
    state: &mut [u8],
    block: &mut [u8],
    inbox: &[u8],
    outbox: &mut [u8],
) -> u8
    ensures { returned_step result state.new block.new outbox.new ≡ step_bytes state.old block.old inbox.now outbox.old }
{
    boards::potekawhi_step(state, block, inbox, outbox)
}

// The number of the next call; 0 where the state has another length.
#[unsafe(no_mangle)]
pub extern "C" fn potekawhi_next_call(state: &[u8]) -> usize
    ensures { result ≡ (state_of state.now).next }
{
    boards::potekawhi_next_call(state)
}

// The number of the outcome.
#[unsafe(no_mangle)]
pub extern "C" fn potekawhi_outcome(state: &[u8]) -> u8
    ensures { result ≡ outcome_in state.now }
{
    boards::potekawhi_outcome(state)
}

// The marks of those whom the controller names; none where the state has another length.
#[unsafe(no_mangle)]
pub extern "C" fn potekawhi_named(state: &[u8]) -> u16
    ensures { result ≡ named_in state.now }
{
    boards::potekawhi_named(state)
}

// The number of the outcome, and the final block, once there is one.
#[unsafe(no_mangle)]
pub extern "C" fn potekawhi_final_block(state: &[u8], block: &[u8], out: &mut [u8]) -> u8
    ensures { returned result out.new ≡ final_bytes state.now block.now out.old }
{
    boards::potekawhi_final_block(state, block, out)
}

// The length of the message in slot j of an inbox of the run `run` with messages of `len` bytes, and to `offset` where it starts; 0 and 0 where there
// is none.
#[unsafe(no_mangle)]
pub extern "C" fn potekawhi_message(
    inbox: &[u8],
    run: u16,
    len: usize,
    j: usize,
    offset: &mut usize,
) -> usize
    ensures { (result ≡ length (message_of inbox.now (layout_with run len) j)) × (offset.new ≡ offset_of inbox.now (layout_with run len) j) }
{
    boards::potekawhi_message(inbox, run, len, j, offset)
}

// The length of a block; 0 outside the settings.
#[unsafe(no_mangle)]
pub extern "C" fn potekawhi_block_length(n: usize, t: usize, k: usize) -> usize
    ensures { result ≡ block_size n t k }
{
    boards::potekawhi_block_length(n, t, k)
}

// The length of a message of round c; 0 outside the settings and rounds.
#[unsafe(no_mangle)]
pub extern "C" fn potekawhi_message_length(n: usize, t: usize, k: usize, c: usize) -> usize
    ensures { result ≡ message_length n t k c }
{
    boards::potekawhi_message_length(n, t, k, c)
}

// The length of the inbox of call c; 0 for the first call and outside the settings and calls.
#[unsafe(no_mangle)]
pub extern "C" fn potekawhi_inbox_length(n: usize, t: usize, k: usize, c: usize) -> usize
    ensures { result ≡ inbox_length n t k c }
{
    boards::potekawhi_inbox_length(n, t, k, c)
}

// The length of the outbox of call c; 0 for the last call and outside the settings and calls.
#[unsafe(no_mangle)]
pub extern "C" fn potekawhi_outbox_length(n: usize, t: usize, k: usize, c: usize) -> usize
    ensures { result ≡ outbox_length n t k c }
{
    boards::potekawhi_outbox_length(n, t, k, c)
}

// How many calls a run has; 0 for a t outside 1 .. 5.
#[unsafe(no_mangle)]
pub extern "C" fn potekawhi_calls(t: usize) -> usize
    ensures { result ≡ cond (outside 1 5 t) 0 (call_count t) }
{
    boards::potekawhi_calls(t)
}

// Piece `number` of a block's coding.
#[unsafe(no_mangle)]
pub extern "C" fn potekawhi_encode(
    n: usize,
    t: usize,
    k: usize,
    number: usize,
    block: &[u8],
    piece: &mut [u8],
) -> u8
    ensures { encoded result piece.new ≡ encode_of n t k number block.now piece.old }
{
    boards::potekawhi_encode(n, t, k, number, block, piece)
}

// Decoding of slots of the run `run`: the block to the lent bytes and its marks to the lent number, by the relation `Answers`.
#[unsafe(no_mangle)]
pub extern "C" fn potekawhi_decode(
    n: usize,
    t: usize,
    k: usize,
    run: u16,
    slots: &[u8],
    block: &mut [u8],
    named: &mut u16,
) -> u8
    ensures { DecodeLeaves n t (layout_with run k) slots.now block.old named.old result block.new named.new }
{
    boards::potekawhi_decode(n, t, k, run, slots, block, named)
}

// The star of the rows in the lent bytes, its four sets to others.
#[unsafe(no_mangle)]
pub extern "C" fn potekawhi_star(n: usize, t: usize, rows: &[u8], sets: &mut [u8]) -> u8
    ensures { returned result sets.new ≡ star_bytes n t rows.now sets.old }
{
    boards::potekawhi_star(n, t, rows, sets)
}

// The missing pairs of the rows in the lent bytes, to others.
#[unsafe(no_mangle)]
pub extern "C" fn potekawhi_missing_pairs(n: usize, rows: &[u8], pairs: &mut [u8]) -> u8
    ensures { returned result pairs.new ≡ pair_bytes n rows.now pairs.old }
{
    boards::potekawhi_missing_pairs(n, rows, pairs)
}

// The star of the missing pairs in the lent bytes, its four sets to others.
#[unsafe(no_mangle)]
pub extern "C" fn potekawhi_star_of_pairs(n: usize, t: usize, pairs: &[u8], sets: &mut [u8]) -> u8
    ensures { returned result sets.new ≡ pair_star_bytes n t pairs.now sets.old }
{
    boards::potekawhi_star_of_pairs(n, t, pairs, sets)
}
