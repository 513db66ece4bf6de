// One stripe by itself, from the values at the points of the present slots: guesses through one set of points after the other, and interpolation with
// errors where all of them fail.
// The values ys and the points xs are two parameters, with their lengths in the contracts: in a struct of both, `try_guesses` and `find` would have to ask
// that its points are those of `pieces` in place of the length. ys and m are two: in one struct behind a reference, a call that lends m and reads ys has no
// proof. pieces, s and marks are three: those of a decoding, of a stripe, and of what is known so far, of which `gather` and `guess_stripe` take others.
ghost use Rattle.std.specs.Prelude.{◌≡◌, true, ◌+◌, ◌≤◌, length, OnSome};
ghost use Rattle.reed_solomon.specs.Decode.{received};
ghost use Rattle.reed_solomon.specs.Steps.{column, values_at, unequal, different, is_right, Settled};

use crate::guessing;
use crate::pieces::{Choice, Pieces};

// The values of the polynomial m at the points xs, into out. (`columns::values` has many polynomials at one point: the field's loop is another.)
fn values(m: &[u8], xs: &[u8], out: &mut [u8])
    requires { length out.old ≡ length xs.now }
    ensures { out.new ≡ values_at m.now xs.now }
{
    out.fill(0);
    for j in (0..m.len()).rev() {
        gf256::horner_at_points(out, xs, m[j]);
    }
}

// The marks of the places at which a and b differ.
fn mark_unequal(a: &[u8], b: &[u8]) -> u16
    requires { (length a.now ≡ length b.now) × (length a.now ≤ 16) }
    ensures { result ≡ unequal a.now b.now }
{
    bitset::select(a.len(), |i| a[i] != b[i])
}

// The marks, by index, of the points xs at which the message m does not take the value that ys has, by way of vs.
fn mark_values(xs: &[u8], ys: &[u8], m: &[u8], vs: &mut [u8]) -> u16
    requires { (length ys.now ≡ length xs.now) × (length vs.old ≡ length xs.now) × (length xs.now ≤ 16) }
    ensures { result ≡ different xs.now ys.now m.now }
{
    values(m, xs, vs);
    mark_unequal(vs, ys)
}

// The same, with bytes of its own for the values of m: with no heap an array of fixed size, lent as far as it is needed.
fn mark_different(xs: &[u8], ys: &[u8], m: &[u8]) -> u16
    requires { (length ys.now ≡ length xs.now) × (length xs.now ≤ 16) }
    ensures { result ≡ different xs.now ys.now m.now }
{
    let n = xs.len();
    let mut vs = [0u8; 16];
    mark_values(xs, ys, m, &mut vs[..n])
}

// Whether the message m is right for the values ys at the points xs: twice the number of values that differ is at most xs.len() - t - 1.
fn is_right(xs: &[u8], ys: &[u8], t: usize, m: &[u8]) -> bool
    requires { (length ys.now ≡ length xs.now) × (length xs.now ≤ 16) × (t ≤ 5) }
    ensures { result ≡ is_right t xs.now ys.now m.now }
{
    2 * bitset::size(mark_different(xs, ys, m)) + t + 1 <= xs.len()
}

// The value of stripe s in slot j; 0 where the slot is absent, as `received` of specs/ has it.
fn received(pieces: &Pieces, s: usize, j: usize) -> u8
    ensures { result ≡ received pieces.now.layout pieces.now.slots.now s j }
{
    let m = wire::message(pieces.slots, pieces.layout, j);
    m.get(s).copied().unwrap_or(0)
}

// The values of stripe s at the points, into ys.
fn gather(pieces: &Pieces, s: usize, ys: &mut [u8])
    requires { length ys.old ≡ length pieces.now.points.now }
    ensures { ys.new ≡ column pieces.now.layout pieces.now.slots.now s pieces.now.points.now }
{
    for (i, y) in ys.iter_mut().enumerate() {
        *y = received(pieces, s, pieces.points[i] as usize);
    }
}

// A guess at stripe s, into m.
fn guess_stripe(pieces: &Pieces, s: usize, choice: Choice, m: &mut [u8])
    requires { length m.old ≡ pieces.now.t + 1 }
{
    let w = pieces.t + 1;
    let mut cols = [0u8; 6];
    let mut tmp = [0u8; 1];
    guessing::guess(pieces, s, choice, &mut cols[..w], &mut tmp, m);
}

// Guesses at stripe s, whose values at the points are ys, through one set of unmarked points after the other, into m, until one is right: the index
// at which the points of that one start.
fn try_guesses(pieces: &Pieces, s: usize, marks: u16, ys: &[u8], m: &mut [u8]) -> Option<usize>
    requires { (length ys.now ≡ length pieces.now.points.now) × (length m.old ≡ pieces.now.t + 1) }
    ensures { OnSome result (is_right pieces.now.t pieces.now.points.now ys.now m.new ≡ true) }
{
    for start in (0..pieces.points.len()).step_by(pieces.t + 1) {
        guess_stripe(pieces, s, Choice { marks, start }, m);
        if is_right(pieces.points, ys, pieces.t, m) {
            return Some(start);
        }
    }
    None
}

// The right bytes of stripe s, whose values at the points are ys, into m, by guesses and else by interpolation with errors: the index from which to
// take points for the next guess; none where no bytes are right.
fn find(pieces: &Pieces, s: usize, marks: u16, ys: &[u8], m: &mut [u8]) -> Option<usize>
    requires { (length ys.now ≡ length pieces.now.points.now) × (length m.old ≡ pieces.now.t + 1) }
    ensures { Settled pieces.now.t pieces.now.points.now ys.now result m.new }
{
    if let Some(start) = try_guesses(pieces, s, marks, ys, m) {
        return Some(start);
    }
    interpolation::candidate(pieces.points, ys, m);
    if is_right(pieces.points, ys, pieces.t, m) {
        return Some(0);
    }
    None
}

// The marks of both sets; where these are too many, the new ones alone.
fn add_marks(marks: u16, new: u16, most: usize) -> u16 {
    let both = bitset::union(marks, new);
    if most < bitset::size(both) {
        return new;
    }
    both
}

// The bytes of stripe s from the values at the points, into m, by way of ys, and which points to guess through next; none where no bytes are right.
// The points whose values differ are marked, as long as t + 1 are left.
fn settle_column(
    pieces: &Pieces,
    s: usize,
    marks: u16,
    ys: &mut [u8],
    m: &mut [u8],
) -> Option<Choice>
    requires { (length ys.old ≡ length pieces.now.points.now) × (length m.old ≡ pieces.now.t + 1) }
    ensures { Settled pieces.now.t pieces.now.points.now (column pieces.now.layout pieces.now.slots.now s pieces.now.points.now) result m.new }
{
    gather(pieces, s, ys);
    let start = find(pieces, s, marks, ys, m)?;
    let new = mark_different(pieces.points, ys, m);
    Some(Choice {
        marks: add_marks(marks, new, pieces.points.len() - pieces.t - 1),
        start,
    })
}

// The same, with bytes of its own for the values received: with no heap an array of fixed size, lent as far as it is needed.
pub(crate) fn settle(pieces: &Pieces, s: usize, marks: u16, m: &mut [u8]) -> Option<Choice>
    requires { length m.old ≡ pieces.now.t + 1 }
    ensures { Settled pieces.now.t pieces.now.points.now (column pieces.now.layout pieces.now.slots.now s pieces.now.points.now) result m.new }
{
    let n = pieces.points.len();
    let mut ys = [0u8; 16];
    settle_column(pieces, s, marks, &mut ys[..n], m)
}
