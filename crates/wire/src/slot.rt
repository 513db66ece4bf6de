// The slots of inboxes and outboxes (document 01, 'The house'; document 02, U11): what stands in a slot beside its message is known here alone. Every
// function is total: no number or length makes a sum or a product overflow.
ghost use Rattle.std.specs.Prelude.{◌≡◌, ◌*◌, ◌≤◌, false, eqb, length, replicate, MatchOption};
ghost use Rattle.wire.specs.Slot.{layout_with, header, width, holds, is_present, message_of, offset_of, bytes, written, slots, to_all, put_slot, relayed, copied};
ghost use Rattle.wire.specs.Steps.{IsSlot, HasNone, IsMessage};

use lists::{high, low, word};
use std::ops::Range;

// What a slot of the run with the number `run` is: a header, which carries that number, and then a message of `length` bytes.
#[derive(Clone, Copy)]
pub struct Layout {
    pub run: u16,
    pub length: usize,
}

// A slot's bytes before its message: the first byte, and the run number, low byte first.
pub const HEADER: usize = 3;

// The first byte of a slot that is present.
const PRESENT: u8 = 1;

// Slots of the run `run` with messages of `len` bytes.
// Shut out: run 0, whatever is given; messages of length 0; of the length of a slot.
pub fn layout_with(run: u16, len: usize) -> Layout
    ensures { result ≡ layout_with run len }
{
    Layout { run, length: len }
}

// An inbox, its layout and a slot's number stay parameters below, as `message_of`, `offset_of` and the others of specs/ have them.

// Whether a slot is present: its first byte is 01, and it carries the number of the run.
// Shut out by must-fail/absent_as_present, must-fail/high_byte_not_compared, must-fail/bytes_swapped, must-fail/other_run_read.
#[tactic(auto, using(crate::proofs::Slots::no_present, crate::proofs::Slots::run_present))]
fn is_present(slot: &[u8], layout: Layout) -> bool
    requires { header ≤ length slot.now }
    ensures { result ≡ is_present layout slot.now }
{
    slot[0] == PRESENT && word(slot[1], slot[2]) == layout.run
}

// Where in a box slot j is; None where the box does not hold it whole.
// Shut out: must-fail/slots_off_by_one.
#[tactic(auto, unfolding(crate::specs::Slot::width))]
fn slot_in(slots: &[u8], layout: Layout, j: usize) -> Option<Range<usize>>
    ensures { MatchOption result (holds slots.now layout j ≡ false) (λ s. IsSlot slots.now layout j s.start s.end) }
{
    let w = HEADER.checked_add(layout.length)?;
    let start = j.checked_sub(1)?.checked_mul(w)?;
    let end = start.checked_add(w)?;
    if slots.len() < end {
        return None;
    }
    Some(start..end)
}

// Where in an inbox the message of slot j is; None where there is none: the slot is absent or of another run, or the inbox does not hold it whole.
fn message_in(inbox: &[u8], layout: Layout, j: usize) -> Option<Range<usize>>
    ensures { MatchOption result (HasNone inbox.now layout j) (λ m. IsMessage inbox.now layout j m.start m.end) }
{
    let Range { start, end } = slot_in(inbox, layout, j)?;
    if !is_present(&inbox[start..end], layout) {
        return None;
    }
    Some(start + HEADER..end)
}

// Where in an inbox the message of slot j starts; 0 where there is none, as the C interface has it.
// Shut out: must-fail/absent_as_present; must-fail/slot_off_by_one.
pub fn offset(inbox: &[u8], layout: Layout, j: usize) -> usize
    ensures { result ≡ offset_of inbox.now layout j }
{
    match message_in(inbox, layout, j) {
        Some(m) => m.start,
        None => 0,
    }
}

// The message of slot j of an inbox, as that part of the inbox; the empty part where there is none.
// Shut out: slot number and length the other way round; a part of j bytes.
pub fn message(inbox: &[u8], layout: Layout, j: usize) -> &[u8]
    ensures { result.now ≡ message_of inbox.now layout j }
{
    match message_in(inbox, layout, j) {
        Some(m) => &inbox[m],
        None => &[],
    }
}

// Silence: every byte 00. A name for `fill`, which the crates above cite by what they send.
// Shut out: bytes 01; the first byte left.
pub fn silence(outbox: &mut [u8])
    ensures { outbox.new ≡ replicate (length outbox.old) 0 }
{
    outbox.fill(0);
}

// Copies the bytes of src to the front of dst, as far as both reach; the rest of dst stays.
// Shut out: the first byte everywhere; the last byte left.
pub fn copy(dst: &mut [u8], src: &[u8])
    ensures { dst.new ≡ copied src.now dst.old }
{
    let n = dst.len().min(src.len());
    dst[..n].copy_from_slice(&src[..n]);
}

// A slot with a message: 01, the run number, low byte first, and the message.
#[tactic(auto, unfolding(crate::specs::Slot::width))]
fn put_slot(slot: &mut [u8], layout: Layout, m: &[u8])
    requires { (length slot.old ≡ width layout) × (length m.now ≡ layout.length) }
    ensures { slot.new ≡ written layout (bytes m.now) }
{
    slot[0] = PRESENT;
    slot[1] = low(layout.run);
    slot[2] = high(layout.run);
    slot[HEADER..].copy_from_slice(m);
}

// A message for one: writes slot j of an outbox. Nothing is written where the outbox does not hold the slot whole or m is not of the layout's
// length.
// Shut out: slot 1 never written; slots as wide as their messages.
pub fn send_one(outbox: &mut [u8], layout: Layout, j: usize, m: &[u8])
    ensures { outbox.new ≡ put_slot outbox.old layout j m.now }
{
    if m.len() != layout.length {
        return;
    }
    if let Some(slot) = slot_in(outbox, layout, j) {
        put_slot(&mut outbox[slot], layout, m);
    }
}

// A slot passed on byte for byte: slot j of `dst` becomes slot i of `src`. Nothing is written where either box does not hold its slot whole.
// Shut out: slot j of `src`; the slot without its last byte.
pub fn relay(dst: &mut [u8], layout: Layout, j: usize, src: &[u8], i: usize)
    ensures { dst.new ≡ relayed dst.old layout j src.now i }
{
    let Some(to) = slot_in(dst, layout, j) else {
        return;
    };
    let Some(from) = slot_in(src, layout, i) else {
        return;
    };
    dst[to].copy_from_slice(&src[from]);
}

// Whether a box is exactly as long as n slots.
// Shut out: a length that is no multiple; a longer box.
pub fn holds_exactly(slots: &[u8], n: usize, layout: Layout) -> bool
    ensures { result ≡ eqb (length slots.now) (n * width layout) }
{
    match slot_in(slots, layout, n) {
        Some(last) => last.end == slots.len(),
        None => n == 0 && slots.is_empty(),
    }
}

// One message to all: writes the n slots of an outbox that is exactly as long. Nothing is written to any other, nor where m is not of the
// layout's length.
// Shut out: n + 1 slots; the last slot left.
pub fn send_all(outbox: &mut [u8], layout: Layout, n: usize, m: &[u8])
    ensures { outbox.new ≡ to_all layout n m.now outbox.old }
{
    if m.len() == layout.length && holds_exactly(outbox, n, layout) {
        fill_slots(outbox, layout, n, m);
    }
}

// The message m in each of the n slots.
fn fill_slots(outbox: &mut [u8], layout: Layout, n: usize, m: &[u8])
    requires { (length outbox.old ≡ n * width layout) × (length m.now ≡ layout.length) }
    ensures { outbox.new ≡ slots layout (λ _. bytes m.now) n }
{
    for j in 0..n {
        send_one(outbox, layout, j + 1, m);
    }
}
