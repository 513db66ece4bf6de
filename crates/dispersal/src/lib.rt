// Calls 1 to 3 of a controller (document 01, 'Rounds'; document 02, U6: sender 0 is none): the sender's block to all, the pieces, the marks.
#![tactic(auto)]

ghost use Rattle.std.specs.Prelude.{◌≡◌, true, false, MatchOption, ◌&&◌, ◌++◌, ◌+◌, ◌*◌, ◌≤◌, length, take, drop};
ghost use Rattle.lists.specs.Same.{same};
ghost use Rattle.bitset.specs.Set.{set_of};
ghost use Rattle.wire.specs.Slot.{width, slots};
ghost use Rattle.settings.specs.Valid.{Numbered};
ghost use Rattle.reed_solomon.specs.Encode.{piece_of, is_ready, Coding};
ghost use Rattle.dispersal.specs.Dispersal.{sent_block, received_block, two_pieces, sent_pieces, is_marked, marks_of, sent_marks};

use settings::Settings;
use wire::{Layout, Round};

// Call 1: the sender's block to all; silence from everyone else, and so from all without a sender.
// Shut out: everyone but the sender sends; as many slots as the own number; must-fail/no_sender_all_send.
#[tactic(auto, unfolding(crate::specs::Dispersal::sent_block))]
pub fn send_block(layout: Layout, s: Settings, own: usize, block: &[u8], outbox: &mut [u8])
    ensures { outbox.new ≡ sent_block layout s.n own s.sender block.now outbox.old }
{
    if own == s.sender {
        wire::send_all(outbox, layout, s.n, block);
    } else {
        wire::silence(outbox);
    }
}

// Call 2: the block becomes the sender's message, or zeros if absent; without a sender it stays, whatever the inbox holds.
// Shut out: the message of slot 1, whoever the sender is; the block kept where the message is absent; must-fail/no_sender_sets_zeros.
#[tactic(auto, unfolding(crate::specs::Dispersal::received_block))]
pub fn receive_block(inbox: &[u8], layout: Layout, sender: usize, block: &mut [u8])
    ensures { block.new ≡ received_block inbox.now layout sender block.old }
{
    if sender == 0 {
        return;
    }
    let m = wire::message(inbox, layout, sender);
    if m.is_empty() {
        wire::silence(block);
    } else {
        wire::copy(block, m);
    }
}

// Whether the first piece of a message is the second of m, and its second the first of m.
fn is_swapped(message: &[u8], m: &[u8], k: usize) -> bool
    requires { length m.now ≡ 2 * k }
    ensures { result ≡ (same (take k message.now) (drop k m.now) && same (drop k message.now) (take k m.now)) }
{
    k <= message.len()
        && lists::is_equal(&message[..k], &m[k..])
        && lists::is_equal(&message[k..], &m[..k])
}

// A block as a controller codes it: into pieces of k bytes for n controllers, of which at most t are faulty; `own` is its number.
#[derive(Clone, Copy)]
struct Coder<'a> {
    n: usize,
    t: usize,
    k: usize,
    own: usize,
    block: &'a [u8],
    ghost ready: { Coding n t k own block.now },
}

impl<'a> Coder<'a> {
    // None where coding refuses the settings, the number or the block's length, or where what is lent beside the block does not fit.
    fn new(s: Settings, own: usize, block: &'a [u8], fits: bool) -> Option<Coder<'a>>
        ensures { MatchOption result (is_ready s.n s.t s.k own block.now fits ≡ false) (λ c. (is_ready s.n s.t s.k own block.now fits ≡ true) × (c.n ≡ s.n) × (c.t ≡ s.t) × (c.k ≡ s.k) × (c.own ≡ own) × (c.block.now ≡ block.now)) }
    {
        let Settings { n, t, k, .. } = s;
        if !reed_solomon::is_ready(n, t, k, own, block, fits) {
            return None;
        }
        Some(Coder {
            n,
            t,
            k,
            own,
            block,
        })
    }

    // Piece j of the coding, into the k bytes of m from `at` on.
    fn write_piece(&self, j: usize, m: &mut [u8], at: usize)
        requires { Numbered self.now.n j × (at + self.now.k ≤ length m.old) }
        ensures { m.new ≡ take at m.old ++ (piece_of self.now.k self.now.t self.now.block.now j ++ drop (at + self.now.k) m.old) }
    {
        let end = at + self.k;
        reed_solomon::encode(self.n, self.t, self.k, j, self.block, &mut m[at..end]).unwrap();
    }

    // To each j the own piece, then piece j.
    fn send_pairs(&self, layout: Layout, outbox: &mut [u8])
        requires { (layout.length ≡ 2 * self.now.k) × (length outbox.old ≡ self.now.n * width layout) }
        ensures { outbox.new ≡ slots layout (two_pieces self.now.k self.now.t self.now.own self.now.block.now) self.now.n }
    {
        let mut pair = [0u8; 256];
        let m = &mut pair[..layout.length];
        self.write_piece(self.own, m, 0);
        for j in 0..self.n {
            self.write_piece(j + 1, m, self.k);
            wire::send_one(outbox, layout, j + 1, m);
        }
    }

    // Whether j is marked. The own piece is the first of m; piece j is written behind it.
    #[tactic(auto, unfolding(crate::specs::Dispersal::is_marked))]
    fn is_marked(&self, inbox: &[u8], layout: Layout, m: &mut [u8], j: usize) -> bool
        requires { Numbered self.now.n j × (length m.old ≡ 2 * self.now.k) × (take self.now.k m.old ≡ piece_of self.now.k self.now.t self.now.block.now self.now.own) }
        ensures { (result ≡ is_marked self.now.k self.now.t self.now.own inbox.now layout self.now.block.now j) × (take self.now.k m.new ≡ piece_of self.now.k self.now.t self.now.block.now self.now.own) }
    {
        if j == self.own {
            return true;
        }
        let message = wire::message(inbox, layout, j);
        if message.is_empty() {
            return false;
        }
        self.write_piece(j, m, self.k);
        is_swapped(message, m, self.k)
    }

    // The set of those marked. Not bitset::select: its test would have to write to m.
    fn marks(&self, inbox: &[u8], layout: Layout) -> u16
        ensures { result ≡ set_of self.now.n (λ i. is_marked self.now.k self.now.t self.now.own inbox.now layout self.now.block.now (i + 1)) }
    {
        let mut pair = [0u8; 256];
        let m = &mut pair[..2 * self.k];
        self.write_piece(self.own, m, 0);
        let mut set = 0u16;
        for i in 0..self.n {
            if self.is_marked(inbox, layout, m, i + 1) {
                set = bitset::insert(set, i);
            }
        }
        set
    }
}

// Call 2: to each controller the own piece, then its piece of the own coding. Refused settings or lengths: nothing is written.
// Shut out: the own piece twice; run 0, whatever is given; must-fail/outbox_untouched; must-fail/first_slot_left; must-fail/round_2_unwritten.
#[tactic(auto, unfolding(crate::specs::Dispersal::sent_pieces))]
pub fn send_pieces(run: u16, s: Settings, own: usize, block: &[u8], outbox: &mut [u8])
    ensures { outbox.new ≡ sent_pieces run s.n s.t s.k own block.now outbox.old }
{
    let layout = wire::kind_layout(run, Round::Pieces, s.n, s.t, s.k);
    let fits = wire::holds_exactly(outbox, s.n, layout);
    if let Some(coder) = Coder::new(s, own, block, fits) {
        coder.send_pairs(layout, outbox);
    }
}

// Call 3: the set of those marked; empty where the settings or the block's length are refused.
// Shut out: the indices one too high; the first t controllers alone; must-fail/marks_without_oneself.
#[tactic(auto, unfolding(crate::specs::Dispersal::marks_of))]
pub fn marks(s: Settings, own: usize, inbox: &[u8], layout: Layout, block: &[u8]) -> u16
    ensures { result ≡ marks_of s.n s.t s.k own inbox.now layout block.now }
{
    match Coder::new(s, own, block, true) {
        Some(coder) => coder.marks(inbox, layout),
        None => 0,
    }
}

// Call 3: the marks to all. An outbox whose length is not that of the slots stays as it is.
// Shut out: bits past n sent; four slots, whatever n is; must-fail/marks_to_nobody.
#[tactic(auto, unfolding(crate::specs::Dispersal::marks_message, crate::specs::Dispersal::sent_marks))]
pub fn send_marks(layout: Layout, n: usize, s: u16, outbox: &mut [u8])
    ensures { outbox.new ≡ sent_marks layout n s outbox.old }
{
    let m = bitset::restrict(s, n).to_le_bytes();
    wire::send_all(outbox, layout, n, &m);
}
