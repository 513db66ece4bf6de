// A guess at the bytes of some stripes: the polynomials through the values of t + 1 slots, for all these stripes at a time. It is right where these
// values are true; whether it is, is told by comparing it with all slots, whatever is written here. So no contract says what is guessed.
ghost use Rattle.std.specs.Prelude.{◌≡◌, ◌+◌, ◌*◌, ◌≤◌, ◌<◌, length};

use crate::columns;
use crate::pieces::{Choice, Pieces};

// The chosen ones of the points into c, as many as it holds.
fn choose(points: &[u8], choice: Choice, c: &mut [u8]) {
    let last = points.iter().enumerate().skip(choice.start);
    let first = points.iter().enumerate().take(choice.start);
    let unmarked = last
        .chain(first)
        .filter(|(i, _)| !bitset::member(choice.marks, *i));
    for (place, (_, x)) in c.iter_mut().zip(unmarked) {
        *place = *x;
    }
}

// The bytes of slot j from stripe `from` on, into a column; it stays where the slot is absent.
fn load_column(pieces: &Pieces, j: usize, from: usize, column: &mut [u8]) {
    let m = wire::message(pieces.slots, pieces.layout, j);
    if from <= m.len() {
        wire::copy(column, &m[from..]);
    }
}

// 0 < rows, or the length of tmp, is asked where columns of so many bytes are cut; `guess` tests it once.
// The bytes of the slots c from stripe `from` on, a column of as many rows for each.
fn load(pieces: &Pieces, c: &[u8], from: usize, rows: usize, cols: &mut [u8])
    requires { 0 < rows }
{
    for (column, j) in cols.chunks_mut(rows).zip(c) {
        load_column(pieces, *j as usize, from, column);
    }
}

// What the columns at the points c give at x in Newton's form, into tmp; the product of the distances of x from these points.
fn newton_value(c: &[u8], x: u8, cols: &[u8], tmp: &mut [u8]) -> u8
    requires { 0 < length tmp.old }
{
    tmp.fill(0);
    let mut weight: u8 = 1;
    for (point, column) in c.iter().rev().zip(cols.rchunks(tmp.len())) {
        let d = gf256::add(x, *point);
        weight = gf256::mul(weight, d);
        gf256::horner_at_point(tmp, d, column);
    }
    weight
}

// Newton's form, the column at x from those before it, at the points c: what they give at x is taken from it, and the rest is divided by the product of
// the distances.
fn newton_column(c: &[u8], x: u8, before: &[u8], column: &mut [u8], tmp: &mut [u8])
    requires { (0 < length tmp.old) × (length column.old ≡ length tmp.old) }
{
    let weight = newton_value(c, x, before, tmp);
    gf256::horner_at_point(tmp, 1, column);
    gf256::scale(tmp, gf256::inv(weight));
    column.copy_from_slice(tmp);
}

// Newton's form of the polynomials through the values in cols, into cols.
fn newton(c: &[u8], cols: &mut [u8], tmp: &mut [u8])
    requires { (length cols.old ≡ length c.now * length tmp.old) × (length cols.old ≤ 768) × (0 < length tmp.old) }
{
    let rows = tmp.len();
    for i in 1..c.len() {
        let (before, rest) = cols.split_at_mut(i * rows);
        newton_column(&c[..i], c[i], before, &mut rest[..rows], tmp);
    }
}

// From Newton's form to coefficients, a point at a time: the point times each column behind it is added to the one before that.
fn expand(c: &[u8], rows: usize, cols: &mut [u8])
    requires { (length cols.old ≡ length c.now * rows) × (length cols.old ≤ 768) }
{
    for (j, x) in c.iter().enumerate().rev() {
        for i in j + 1..c.len() {
            let (before, column) = cols.split_at_mut(i * rows);
            gf256::add_multiple(&mut before[(i - 1) * rows..], *x, column);
        }
    }
}

// A guess at the stripes from `from` on, as many as tmp has bytes, into out, by way of cols and tmp: through the first t + 1 of the chosen points.
pub(crate) fn guess(
    pieces: &Pieces,
    from: usize,
    choice: Choice,
    cols: &mut [u8],
    tmp: &mut [u8],
    out: &mut [u8],
)
    requires { (length tmp.old ≤ 128) × (length cols.old ≡ (pieces.now.t + 1) * length tmp.old) × (length out.old ≡ (pieces.now.t + 1) * length tmp.old) }
{
    let rows = tmp.len();
    if rows == 0 {
        return;
    }
    let w = pieces.t + 1;
    let mut c = [0u8; 16];
    choose(pieces.points, choice, &mut c);
    load(pieces, &c[..w], from, rows, cols);
    newton(&c[..w], cols, tmp);
    expand(&c[..w], rows, cols);
    columns::transpose(cols, w, rows, out);
}
