// The pieces that decoding reads, and what a guess at a block goes through.
ghost use Rattle.reed_solomon.specs.Steps.{Lent};

use wire::Layout;

// n slots of pieces, and the points of the present ones, rising: enough for t + 1 bytes.
// The lengths of a block (`layout.length * (t + 1)`) and of a stripe m (`t + 1`) stand in the contracts that lend them, beside `&Pieces`: both are written,
// and a ghost field beside a `&mut` is not covered, so no type keeps their length.
#[derive(Clone, Copy)]
pub(crate) struct Pieces<'a> {
    pub(crate) n: usize,
    pub(crate) t: usize,
    pub(crate) layout: Layout,
    pub(crate) slots: &'a [u8],
    pub(crate) points: &'a [u8],
    pub(crate) ghost lent: { Lent n t layout slots.now points.now },
}

// The points that a guess goes through: those with no mark, by index, from the index `start` on and then from the first on.
#[derive(Clone, Copy)]
pub(crate) struct Choice {
    pub(crate) marks: u16,
    pub(crate) start: usize,
}
