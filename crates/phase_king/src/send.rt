// The messages of the vote: the matrix, and the zeros matrix with the ones matrix (document 01, 'Rounds', rounds 3p + 1 to 3p + 3).
ghost use Rattle.std.specs.Prelude.{◌≡◌, ◌++◌, ◌*◌, ◌≤◌, min, length, drop};
ghost use Rattle.bitset.specs.Row.{rows_length, rows_of};
ghost use Rattle.wire.specs.Slot.{to_all};
ghost use Rattle.phase_king.specs.Matrix.{seen_message, sent_by_king};

use wire::Layout;

// The matrix to all: rounds 3p + 1 and 3p + 3. An outbox whose length is not that of the slots stays as it is.
// Shut out: a message of zeros; half the message.
pub fn send_matrix(outbox: &mut [u8], layout: Layout, rows: &[u16; 16], n: usize)
    ensures { outbox.new ≡ to_all layout (min n 16) (rows_of n rows.now) outbox.old }
{
    let mut m = [0u8; 32];
    bitset::write_rows(&mut m, rows, n);
    let end = bitset::rows_length(n);
    wire::send_all(outbox, layout, n.min(16), &m[..end]);
}

// The message of the zeros matrix, then the ones matrix, at the front of m.
fn write_seen(m: &mut [u8], zeros: &[u16; 16], ones: &[u16; 16], n: usize)
    requires { 2 * rows_length n ≤ length m.old }
    ensures { m.new ≡ seen_message n zeros.now ones.now ++ drop (2 * rows_length n) m.old }
{
    bitset::write_rows(m, zeros, n);
    let start = bitset::rows_length(n);
    bitset::write_rows(&mut m[start..], ones, n);
}

// The zeros matrix, then the ones matrix to all: round 3p + 2. An outbox whose length is not that of the slots stays as it is.
// Shut out: the ones matrix first; the zeros matrix alone.
pub fn send_seen(outbox: &mut [u8], layout: Layout, zeros: &[u16; 16], ones: &[u16; 16], n: usize)
    ensures { outbox.new ≡ to_all layout (min n 16) (seen_message n zeros.now ones.now) outbox.old }
{
    let mut m = [0u8; 64];
    write_seen(&mut m, zeros, ones, n);
    let end = 2 * bitset::rows_length(n);
    wire::send_all(outbox, layout, n.min(16), &m[..end]);
}

// The matrix to all if the own number is the king's, else silence: round 3p + 3.
// Shut out: controller 1's matrix, whoever is king; must-fail/kings_matrix_by_nobody.
#[tactic(auto, using(crate::proofs::Writes::king_all, crate::proofs::Writes::king_none))]
pub fn send_as_king(
    outbox: &mut [u8],
    layout: Layout,
    own: usize,
    king: usize,
    rows: &[u16; 16],
    n: usize,
)
    ensures { outbox.new ≡ sent_by_king layout own king n rows.now outbox.old }
{
    if own == king {
        send_matrix(outbox, layout, rows, n);
    } else {
        wire::silence(outbox);
    }
}
