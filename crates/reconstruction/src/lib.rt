// Calls 3t + 7 to 3t + 9 of a controller (document 01, 'Rounds'): pieces for everyone from the core, everyone's piece, the block.
#![tactic(auto)]

ghost use Rattle.std.specs.Prelude.{◌≡◌, ◌≢◌, ◌&&◌, List, [], ℕ, ◌+◌, ◌*◌, ◌<◌, length, MatchOption};
ghost use Rattle.lists.specs.Same.{same};
ghost use Rattle.bitset.specs.Set.{member};
ghost use Rattle.settings.specs.Valid.{Quorum, Coded};
ghost use Rattle.wire.specs.Length.{block_length};
ghost use Rattle.wire.specs.Slot.{width, message_of, bytes, slots};
ghost use Rattle.reed_solomon.specs.Encode.{piece_of, Coding};
ghost use Rattle.reconstruction.specs.Reconstruction.{in_core, forwarded, votes, is_chosen, chosen_piece, sent_piece, shared, finish, finished};
ghost use Rattle.reconstruction.specs.Outcomes.{outcome_number, outcome_word, outcome_from};

use settings::Settings;
use wire::{Layout, Round};

// How a run stands or ended (document 01, 'The house').
#[derive(Clone, Copy, PartialEq, Eq)]
pub enum Outcome {
    Open,
    Agreed,
    None,
    Beyond,
}

impl Outcome {
    // Document 01's word for an outcome.
    // No Display: the simulator appends it to a buffer, and what std's Display writes is known of a String or a Vec alone.
    // Shut out: open for none; beyond with a blank before it; must-fail/beyond_worded_none.
    pub fn word(self) -> &'static [u8]
        ensures { result.now ≡ outcome_word self }
    {
        match self {
            Outcome::Open => b"open",
            Outcome::Agreed => b"agreed",
            Outcome::None => b"none",
            Outcome::Beyond => b"beyond",
        }
    }
}

// The number of an outcome.
// Shut out: must-fail/beyond_numbered_none; 1 for open.
impl From<Outcome> for u8 {
    ghost from_gives = { λ w x. x ≡ outcome_number w };

    fn from(outcome: Outcome) -> u8 {
        match outcome {
            Outcome::Open => 0,
            Outcome::Agreed => 1,
            Outcome::None => 2,
            Outcome::Beyond => 3,
        }
    }
}

// The outcome of a number; open where it is no outcome's.
// From and not TryFrom: `outcome_from` of specs/ answers open.
// Shut out: beyond for every number past 3; must-fail/none_read_as_agreed.
impl From<u8> for Outcome {
    ghost from_gives = { λ x w. w ≡ outcome_from x };

    #[tactic(auto, unfolding(crate::specs::Outcomes::outcome_from))]
    fn from(x: u8) -> Outcome {
        match x {
            1 => Outcome::Agreed,
            2 => Outcome::None,
            3 => Outcome::Beyond,
            _ => Outcome::Open,
        }
    }
}

// What the last call sets in the state: the outcome, and whom the controller names, as marks (document 02, U1). Side by side, as a state and its bytes keep
// them, and `ending` of specs/Reconstruction has them.
#[derive(Clone, Copy)]
pub struct Ending {
    pub outcome: Outcome,
    pub named: u16,
}

// Whether controller j is in the core.
#[tactic(auto, unfolding(crate::specs::Reconstruction::in_core))]
fn in_core(core: u16, j: usize) -> bool
    ensures { result ≡ in_core core j }
{
    j != 0 && bitset::member(core, j - 1)
}

// To each j piece j of the block's coding.
fn send_coding(layout: Layout, s: Settings, block: &[u8], outbox: &mut [u8])
    requires { Coded s.n s.t s.k × (length block.now ≡ block_length s.k s.t) × (layout.length ≡ s.k) × (length outbox.old ≡ s.n * width layout) }
    ensures { outbox.new ≡ slots layout (λ j. bytes (piece_of s.k s.t block.now j)) s.n }
{
    let Settings { n, t, k, .. } = s;
    let mut bytes = [0u8; 128];
    let piece = &mut bytes[..k];
    for j in 0..n {
        reed_solomon::encode(n, t, k, j + 1, block, piece).unwrap();
        wire::send_one(outbox, layout, j + 1, piece);
    }
}

// Call 3t + 7: a core member sends to each j piece j of its own coding; others are silent.
// Shut out: run 0, whatever is given; must-fail/member_silent; must-fail/last_slots_left.
#[tactic(auto, unfolding(crate::specs::Reconstruction::forwarded))]
pub fn forward(run: u16, s: Settings, own: usize, core: u16, block: &[u8], outbox: &mut [u8])
    ensures { outbox.new ≡ forwarded run s.n s.t s.k own core block.now outbox.old }
{
    if !in_core(core, own) {
        wire::silence(outbox);
        return;
    }
    let Settings { n, t, k, .. } = s;
    let layout = wire::kind_layout(run, Round::Forward, n, t, k);
    let fits = wire::holds_exactly(outbox, n, layout);
    if reed_solomon::is_ready(n, t, k, own, block, fits) {
        send_coding(layout, s, block, outbox);
    }
}

// The pieces that the members of the core sent, in the slots of an inbox.
#[derive(Clone, Copy)]
struct Offers<'a> {
    n: usize,
    t: usize,
    core: u16,
    inbox: &'a [u8],
    layout: Layout,
    ghost quorum: { Quorum n t },
}

impl<'a> Offers<'a> {
    // Whether the controller of index i is a core member and sent m.
    fn is_vote(&self, i: usize, m: &[u8]) -> bool
        requires { i < 16 }
        ensures { result ≡ (member self.now.core i && same (message_of self.now.inbox.now self.now.layout (i + 1)) m.now) }
    {
        let sent = wire::message(self.inbox, self.layout, i + 1);
        bitset::member(self.core, i) && lists::is_equal(sent, m)
    }

    // How many core members sent m.
    fn votes(&self, m: &[u8]) -> usize
        ensures { result ≡ votes self.now.n self.now.core self.now.inbox.now self.now.layout m.now }
    {
        bitset::size(bitset::select(self.n, |i| self.is_vote(i, m)))
    }

    // Whether the controller of index i is a core member that sent a piece which at least t + 1 members sent.
    #[tactic(auto, unfolding(crate::specs::Reconstruction::is_chosen))]
    fn is_chosen(&self, i: usize) -> bool
        requires { i < self.now.n }
        ensures { result ≡ is_chosen self.now.n self.now.t self.now.core self.now.inbox.now self.now.layout i }
    {
        let m = wire::message(self.inbox, self.layout, i + 1);
        bitset::member(self.core, i) && !m.is_empty() && self.t + 1 <= self.votes(m)
    }

    // The first piece that is chosen.
    fn chosen(&self) -> Option<&'a [u8]>
        ensures { MatchOption result (chosen_piece self.now.n self.now.t self.now.core self.now.inbox.now self.now.layout ≡ []) (λ m. (m.now ≡ chosen_piece self.now.n self.now.t self.now.core self.now.inbox.now self.now.layout) × (length m.now ≢ 0)) }
    {
        let i = (0..self.n).find(|i| self.is_chosen(*i))?;
        Some(wire::message(self.inbox, self.layout, i + 1))
    }

    // The chosen piece to all; silence where none is chosen.
    #[tactic(auto, unfolding(crate::specs::Reconstruction::sent_piece))]
    fn share(&self, out: Layout, outbox: &mut [u8])
        ensures { outbox.new ≡ sent_piece out self.now.n (chosen_piece self.now.n self.now.t self.now.core self.now.inbox.now self.now.layout) outbox.old }
    {
        match self.chosen() {
            Some(m) => wire::send_all(outbox, out, self.n, m),
            None => wire::silence(outbox),
        }
    }
}

// The own piece to all.
fn share_own(out: Layout, s: Settings, own: usize, block: &[u8], outbox: &mut [u8])
    requires { Coding s.n s.t s.k own block.now × (out.length ≡ s.k) }
    ensures { outbox.new ≡ sent_piece out s.n (piece_of s.k s.t block.now own) outbox.old }
{
    let Settings { n, t, k, .. } = s;
    let mut bytes = [0u8; 128];
    let piece = &mut bytes[..k];
    reed_solomon::encode(n, t, k, own, block, piece).unwrap();
    wire::send_all(outbox, out, n, piece);
}

// Call 3t + 8: a member sends its own piece to all, another the piece that is chosen.
// Shut out: must-fail/own_piece_outside_core; must-fail/t_members_enough; must-fail/non_member_counted; must-fail/silent_outside_the_core.
#[tactic(auto, unfolding(crate::specs::Reconstruction::shared, crate::specs::Reconstruction::own_piece))]
pub fn share(
    s: Settings,
    own: usize,
    core: u16,
    inbox: &[u8],
    layout: Layout,
    block: &[u8],
    outbox: &mut [u8],
)
    ensures { outbox.new ≡ shared s.n s.t s.k own core inbox.now layout block.now outbox.old }
{
    let Settings { n, t, k, .. } = s;
    let out = wire::kind_layout(layout.run, Round::Rebuild, n, t, k);
    let fits = wire::holds_exactly(outbox, n, out);
    if !reed_solomon::is_ready(n, t, k, own, block, fits) {
        return;
    }
    if in_core(core, own) {
        share_own(out, s, own, block, outbox);
    } else {
        let offers = Offers {
            n,
            t,
            core,
            inbox,
            layout,
        };
        offers.share(out, outbox);
    }
}

// The last call: no core: none and a block of zeros; else agreed, the block that meets decoding's rule and the marks of the slots that do not hold
// their piece of it, or beyond and zeros where none does; where decoding is refused, open and the block as it was. Nobody is named but with agreed.
// Shut out: everyone named where there is no core; nobody named with agreed; must-fail/always_none; must-fail/none_for_agreed.
pub fn finish(s: Settings, layout: Layout, core: u16, inbox: &[u8], block: &mut [u8]) -> Ending
    ensures { finish result block.new ≡ finished s.n s.t layout core inbox.now block.old }
{
    if bitset::restrict(core, s.n) == 0 {
        wire::silence(block);
        return Ending {
            outcome: Outcome::None,
            named: 0,
        };
    }
    match reed_solomon::decode(s.n, s.t, layout, inbox, block) {
        Ok(Some(named)) => Ending {
            outcome: Outcome::Agreed,
            named,
        },
        Ok(None) => Ending {
            outcome: Outcome::Beyond,
            named: 0,
        },
        Err(_) => Ending {
            outcome: Outcome::Open,
            named: 0,
        },
    }
}
