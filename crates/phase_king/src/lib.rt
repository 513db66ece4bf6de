// The vote among the controllers on a matrix of marks, bit by bit (document 01, 'Rounds', call 4 and rounds 3p + 1 to 3p + 3; Berman, Garay
// and Perry). Index i is controller i + 1; a king is named by its number. Every function is total: a number n over 16 counts as 16.
// What slots say is in inbox.rt, the rules for one bit in one_bit.rt, what is sent in send.rt.
// The public functions take the inbox's bytes, its layout and n one by one, as their clauses do (`collect_answer inbox.now layout n`).
// t stands beside the private functions' &Inbox: `collect` and `settle` make an Inbox too and have no t.
#![tactic(auto)]

mod inbox;
mod one_bit;
mod send;

ghost use Rattle.std.specs.Prelude.{◌≡◌, ◌+◌, ◌<◌};
ghost use Rattle.bitset.specs.Set.{member, set_of};
ghost use Rattle.phase_king.specs.Bit.{zero_seen, one_seen, held, weak, settled};
ghost use Rattle.phase_king.specs.Matrix.{said, king_says, collect_answer, tally_answer, hold_answer, settle_answer};

use inbox::Inbox;
use one_bit::{held_bit, one_seen, settled_bit, weak_bit, zero_seen};
pub use send::{send_as_king, send_matrix, send_seen};
use wire::Layout;

// A matrix: a row of marks for each controller.
#[derive(Clone, Copy)]
pub struct Matrix {
    pub rows: [u16; 16],
}

// The matrices of Seen and of Held stay apart: `settle` and `send_seen` take them one by one, as their clauses name each.

// Where zero is seen and where one is seen.
#[derive(Clone, Copy)]
pub struct Seen {
    pub zeros: [u16; 16],
    pub ones: [u16; 16],
}

// The bits now held, and where their count is below n - t.
#[derive(Clone, Copy)]
pub struct Held {
    pub rows: [u16; 16],
    pub weak: [u16; 16],
}

// Call 4: row j of the matrix is the message of j.
// Shut out: the next slot's message; another row of it; must-fail/absent_says_one.
pub fn collect(inbox: &[u8], layout: Layout, n: usize) -> Matrix
    ensures { result ≡ collect_answer inbox.now layout n }
{
    let rows = Inbox::new(inbox, layout, n).rows(0);
    Matrix { rows }
}

// Row r of where zero is seen.
fn zeros_row(inbox: &Inbox, t: usize, r: usize) -> u16
    ensures { result ≡ set_of inbox.now.n (λ j. zero_seen inbox.now.n t (said inbox.now.slots.now inbox.now.layout inbox.now.n r j)) }
{
    let said = inbox.rows(r);
    inbox.row_of(|j| zero_seen(inbox, &said, t, j))
}

// Row r of where one is seen. One function for this row and that of the zeros would hand the rule on as a closure within a closure: no shorter.
fn ones_row(inbox: &Inbox, t: usize, r: usize) -> u16
    ensures { result ≡ set_of inbox.now.n (λ j. one_seen inbox.now.n t (said inbox.now.slots.now inbox.now.layout inbox.now.n r j)) }
{
    let said = inbox.rows(r);
    inbox.row_of(|j| one_seen(inbox, &said, t, j))
}

// After round 3p + 1: where zero and where one is seen.
// Shut out: zero seen only above n - t; the zeros matrix in the place of the ones matrix; must-fail/one_fewer_seen.
pub fn tally(inbox: &[u8], layout: Layout, n: usize, t: usize) -> Seen
    ensures { result ≡ tally_answer inbox.now layout n t }
{
    let inbox = Inbox::new(inbox, layout, n);
    let zeros = inbox.matrix_of(|r| zeros_row(&inbox, t, r));
    let ones = inbox.matrix_of(|r| ones_row(&inbox, t, r));
    Seen { zeros, ones }
}

// Row r of the bits now held. The slots' rows for the ones stand n rows further on.
fn held_row(inbox: &Inbox, t: usize, r: usize) -> u16
    requires { r < 16 }
    ensures { result ≡ set_of inbox.now.n (λ j. held inbox.now.n t (said inbox.now.slots.now inbox.now.layout inbox.now.n (inbox.now.n + r) j)) }
{
    let ones = inbox.rows(inbox.n + r);
    inbox.row_of(|j| held_bit(inbox, &ones, t, j))
}

// Row r of where the count for the bit held is below n - t.
fn weak_row(inbox: &Inbox, t: usize, r: usize) -> u16
    requires { r < 16 }
    ensures { result ≡ set_of inbox.now.n (λ j. weak inbox.now.n t (said inbox.now.slots.now inbox.now.layout inbox.now.n r j) (said inbox.now.slots.now inbox.now.layout inbox.now.n (inbox.now.n + r) j)) }
{
    let zeros = inbox.rows(r);
    let ones = inbox.rows(inbox.n + r);
    inbox.row_of(|j| weak_bit(inbox, &zeros, &ones, t, j))
}

// After round 3p + 2: the bits now held, and where their count is below n - t. It has the shape of `tally`, but each fills a struct of its
// own and has a clause of its own (`tally_answer`, `hold_answer`): one function of both would take the two row functions and give back a
// pair to be named, no shorter.
// Shut out: weak where the count is n - t; must-fail/ones_at_least_t.
pub fn hold(inbox: &[u8], layout: Layout, n: usize, t: usize) -> Held
    ensures { result ≡ hold_answer inbox.now layout n t }
{
    let inbox = Inbox::new(inbox, layout, n);
    let rows = inbox.matrix_of(|r| held_row(&inbox, t, r));
    let weak = inbox.matrix_of(|r| weak_row(&inbox, t, r));
    Held { rows, weak }
}

// Row r after round 3p + 3, from that of the bits held and that of where they are weak.
fn settled_row(inbox: &Inbox, held: u16, weak: u16, king: usize, r: usize) -> u16
    ensures { result ≡ set_of inbox.now.n (λ j. settled (member held j) (member weak j) (king_says inbox.now.slots.now inbox.now.layout inbox.now.n king r j)) }
{
    let says = inbox.king_row(king, r);
    inbox.row_of(|j| settled_bit(held, weak, says, j))
}

// After round 3p + 3: the king's bit where weak, else the bit held.
// Shut out: never the king's bit; must-fail/always_the_kings_bit.
pub fn settle(
    rows: &[u16; 16],
    weak: &[u16; 16],
    inbox: &[u8],
    layout: Layout,
    n: usize,
    king: usize,
) -> Matrix
    ensures { result ≡ settle_answer rows.now weak.now inbox.now layout n king }
{
    let inbox = Inbox::new(inbox, layout, n);
    let settled = inbox.matrix_of(|r| settled_row(&inbox, rows[r], weak[r], king, r));
    Matrix { rows: settled }
}
