// What the slots of an inbox say (document 01, 'Rounds', call 4 and rounds 3p + 1 to 3p + 3).
ghost use Rattle.std.specs.Prelude.{◌≡◌, ℕ, ◌+◌, ◌≤◌, ◌<◌, min};
ghost use Rattle.bitset.specs.Set.{Selected};
ghost use Rattle.bitset.specs.Row.{row_of};
ghost use Rattle.wire.specs.Slot.{message_of};
ghost use Rattle.phase_king.specs.Steps.{said_rows, king_row, IsMatrixOf};

use wire::Layout;

// An inbox of n slots, of 16 at most.
#[derive(Clone, Copy)]
pub(crate) struct Inbox<'a> {
    pub(crate) slots: &'a [u8],
    pub(crate) layout: Layout,
    pub(crate) n: usize,
    ghost few: { n ≤ 16 },
}

// What an absent slot says: 0 at each bit.
const ABSENT: u16 = 0;

impl<'a> Inbox<'a> {
    // A number n over 16 counts as 16.
    pub(crate) fn new(slots: &'a [u8], layout: Layout, n: usize) -> Inbox<'a>
        ensures { (result.slots.now ≡ slots.now) × (result.layout ≡ layout) × (result.n ≡ min n 16) }
    {
        Inbox {
            slots,
            layout,
            n: n.min(16),
        }
    }

    // The row of the bits that f answers, for each below n.
    pub(crate) fn row_of<F: Fn(usize) -> bool>(&self, f: F) -> u16
        requires { (j : ℕ) → j < self.now.n → F.pre f j }
        ensures { Selected (F.post f) self.now.n result }
    {
        bitset::select(self.n, f)
    }

    // The matrix of the rows that f answers, for each below n.
    pub(crate) fn matrix_of<F: Fn(usize) -> u16>(&self, f: F) -> [u16; 16]
        requires { (r : ℕ) → r < self.now.n → F.pre f r }
        ensures { IsMatrixOf (F.post f) self.now.n result }
    {
        let mut rows = [0; 16];
        for r in 0..self.n {
            rows[r] = f(r);
        }
        rows
    }

    // Row r of what slot i + 1 says.
    fn row(&self, r: usize, i: usize) -> u16
        requires { i < 16 }
        ensures { result ≡ row_of self.now.n (message_of self.now.slots.now self.now.layout (i + 1)) r }
    {
        let m = wire::message(self.slots, self.layout, i + 1);
        if m.is_empty() {
            ABSENT
        } else {
            bitset::read_row(m, self.n, r)
        }
    }

    // Row r of what each of the n slots says.
    pub(crate) fn rows(&self, r: usize) -> [u16; 16]
        ensures { result ≡ said_rows self.now.slots.now self.now.layout self.now.n r }
    {
        self.matrix_of(|i| self.row(r, i))
    }

    // Row r of the king's message; zeros for a king that is none of 1 to n.
    pub(crate) fn king_row(&self, king: usize, r: usize) -> u16
        ensures { result ≡ king_row self.now.slots.now self.now.layout self.now.n king r }
    {
        if self.n < king {
            0
        } else {
            bitset::read_row(wire::message(self.slots, self.layout, king), self.n, r)
        }
    }
}
