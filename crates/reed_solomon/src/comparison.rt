// The slots beside the code of a block: which do not hold their piece of it (document 02, U1), and in which stripes too many differ (U2).
ghost use Rattle.std.specs.Prelude.{◌≡◌, not, ℕ, ◌+◌, ◌*◌, ◌≤◌, ◌<◌, length, get_or, replicate};
ghost use Rattle.lists.specs.Same.{same};
ghost use Rattle.wire.specs.Slot.{message_of};
ghost use Rattle.reed_solomon.specs.Steps.{row_values, counted, Compared, FirstWrong, Checked};

use crate::columns;
use crate::pieces::Pieces;

// A block compared with all slots: the marks of those that do not hold their piece of it, and the first stripe in which too many differ, if there is one.
#[derive(Clone, Copy)]
pub(crate) struct Comparison {
    pub(crate) named: u16,
    pub(crate) wrong: Option<usize>,
}

// Adds 1 to each count at which m has another byte than piece.
fn count_different(m: &[u8], piece: &[u8], counts: &mut [u8])
    requires { (length m.now ≤ length piece.now) × (length m.now ≤ length counts.old) × ((s : ℕ) → get_or counts.old s 0 < 255) }
    ensures { counts.new ≡ counted m.now piece.now counts.old }
{
    for (s, byte) in m.iter().enumerate() {
        counts[s] += u8::from(piece[s] != *byte);
    }
}

// Whether slot j does not hold its piece, from the columns of a block, by way of `piece`; adds 1 to the count of each stripe in which its message
// differs.
fn compare_slot(pieces: &Pieces, cols: &[u8], j: usize, piece: &mut [u8], counts: &mut [u8]) -> bool
    requires { (length cols.now ≡ pieces.now.layout.length * (pieces.now.t + 1)) × (length piece.old ≡ pieces.now.layout.length) × (length counts.old ≡ pieces.now.layout.length) × (j ≤ 16) × ((s : ℕ) → get_or counts.old s 0 < 255) }
    ensures { (result ≡ not (same (message_of pieces.now.slots.now pieces.now.layout j) (row_values pieces.now.layout.length pieces.now.t cols.now j))) × (counts.new ≡ counted (message_of pieces.now.slots.now pieces.now.layout j) (row_values pieces.now.layout.length pieces.now.t cols.now j) counts.old) }
{
    columns::values(cols, pieces.t, j as u8, piece);
    let m = wire::message(pieces.slots, pieces.layout, j);
    count_different(m, piece, counts);
    !lists::is_equal(m, piece)
}

// The marks of the slots of 1 .. n that do not hold their piece of the block, and how many are present and differ in each stripe, added to zeros.
// Not bitset::select: its test would have to write to piece and counts.
fn compare(
    pieces: &Pieces,
    block: &[u8],
    cols: &mut [u8],
    piece: &mut [u8],
    counts: &mut [u8],
) -> u16
    requires { (length block.now ≡ pieces.now.layout.length * (pieces.now.t + 1)) × (length cols.old ≡ pieces.now.layout.length * (pieces.now.t + 1)) × (length piece.old ≡ pieces.now.layout.length) × (counts.old ≡ replicate pieces.now.layout.length 0) }
    ensures { Compared pieces.now.n pieces.now.t pieces.now.layout pieces.now.slots.now block.now result counts.new }
{
    columns::transpose(block, pieces.layout.length, pieces.t + 1, cols);
    let mut named: u16 = 0;
    for i in 0..pieces.n {
        if compare_slot(pieces, cols, i + 1, piece, counts) {
            named = bitset::insert(named, i);
        }
    }
    named
}

// The first stripe from `from` on in which more differ than the rule allows where `present` slots are present.
fn first_wrong(counts: &[u8], t: usize, present: usize, from: usize) -> Option<usize>
    requires { (from ≤ length counts.now) × (t ≤ 5) }
    ensures { FirstWrong t present counts.now from result }
{
    for s in from..counts.len() {
        if present < 2 * counts[s] as usize + t + 1 {
            return Some(s);
        }
    }
    None
}

// The block compared with all slots, by way of cols and `piece`; `wrong` is the first wrong stripe from `from` on. (Two parameters: see `guess_rest`.)
pub(crate) fn check(
    pieces: &Pieces,
    from: usize,
    block: &[u8],
    cols: &mut [u8; 768],
    piece: &mut [u8; 128],
) -> Comparison
    requires { (from ≤ pieces.now.layout.length) × (length block.now ≡ pieces.now.layout.length * (pieces.now.t + 1)) }
    ensures { Checked pieces.now.n pieces.now.t pieces.now.layout pieces.now.slots.now (length pieces.now.points.now) block.now from result.named result.wrong }
{
    let k = pieces.layout.length;
    let size = block.len();
    let mut counts = [0u8; 128];
    let named = compare(
        pieces,
        block,
        &mut cols[..size],
        &mut piece[..k],
        &mut counts[..k],
    );
    let wrong = first_wrong(&counts[..k], pieces.t, pieces.points.len(), from);
    Comparison { named, wrong }
}
