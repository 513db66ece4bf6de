// The rules for one bit (document 01, 'Rounds': after 3p + 1, 3p + 2 and 3p + 3). They take n from the inbox, t and the slots' rows one by
// one, as the definitions do (`zero_seen n t said`): each clause is a definition's.
ghost use Rattle.std.specs.Prelude.{◌≡◌};
ghost use Rattle.lists.specs.Sum.{count};
ghost use Rattle.bitset.specs.Set.{member};
ghost use Rattle.phase_king.specs.Bit.{zero_seen, one_seen, held, weak, settled};
ghost use Rattle.phase_king.specs.Matrix.{cell};

use crate::inbox::Inbox;

// How many of the first n rows have bit j. The count is as wide as the rows, so that the compiler adds up eight of them at once.
fn count_bit(inbox: &Inbox, rows: &[u16; 16], j: usize) -> usize
    ensures { result ≡ count inbox.now.n (λ i. cell rows.now i j) }
{
    let mut count: u16 = 0;
    for i in 0..inbox.n {
        count += u16::from(bitset::member(rows[i], j));
    }
    usize::from(count)
}

// Whether at least n - t say 0 at bit j.
pub(crate) fn zero_seen(inbox: &Inbox, said: &[u16; 16], t: usize, j: usize) -> bool
    ensures { result ≡ zero_seen inbox.now.n t (λ i. cell said.now i j) }
{
    inbox.n.saturating_sub(t) <= inbox.n.saturating_sub(count_bit(inbox, said, j))
}

// Whether at least n - t say 1 at bit j.
#[tactic(auto, unfolding(crate::specs::Bit::one_seen))]
pub(crate) fn one_seen(inbox: &Inbox, said: &[u16; 16], t: usize, j: usize) -> bool
    ensures { result ≡ one_seen inbox.now.n t (λ i. cell said.now i j) }
{
    inbox.n.saturating_sub(t) <= count_bit(inbox, said, j)
}

// The bit held: 1 if more than t have one seen.
#[tactic(auto, unfolding(crate::specs::Bit::held))]
pub(crate) fn held_bit(inbox: &Inbox, ones: &[u16; 16], t: usize, j: usize) -> bool
    ensures { result ≡ held inbox.now.n t (λ i. cell ones.now i j) }
{
    t < count_bit(inbox, ones, j)
}

// Whether the count for the bit held is below n - t.
pub(crate) fn weak_bit(
    inbox: &Inbox,
    zeros: &[u16; 16],
    ones: &[u16; 16],
    t: usize,
    j: usize,
) -> bool
    ensures { result ≡ weak inbox.now.n t (λ i. cell zeros.now i j) (λ i. cell ones.now i j) }
{
    let quorum = inbox.n.saturating_sub(t);
    if held_bit(inbox, ones, t, j) {
        count_bit(inbox, ones, j) < quorum
    } else {
        count_bit(inbox, zeros, j) < quorum
    }
}

// Bit j after round 3p + 3.
#[tactic(auto, unfolding(crate::specs::Bit::settled))]
pub(crate) fn settled_bit(held: u16, weak: u16, king: u16, j: usize) -> bool
    ensures { result ≡ settled (member held j) (member weak j) (member king j) }
{
    if bitset::member(weak, j) {
        bitset::member(king, j)
    } else {
        bitset::member(held, j)
    }
}
