// The Reed-Solomon code (document 01, 'Field and code'; document 02, U2 and U1): one piece of a block's coding, and a block from the present ones of
// n slots of pieces, with the marks of those that are not its own. It knows of the field only its contracts and laws.
#![tactic(auto)]

mod columns;
mod comparison;
mod guessing;
mod pieces;
mod settling;

ghost use Rattle.std.specs.Prelude.{◌≡◌, ◌+◌, ◌*◌, ◌≤◌, ◌<◌, eqb, length, take, Ok};
ghost use Rattle.settings.specs.Valid.{Coded};
ghost use Rattle.settings.specs.Number.{number_of};
ghost use Rattle.wire.specs.Length.{block_length};
ghost use Rattle.reed_solomon.specs.Encode.{piece_of, encode_fits, encoded, encode_of, is_ready};
ghost use Rattle.reed_solomon.specs.Decode.{has_piece, decode_fits, decode_refusal, decoded_of, Answers};
ghost use Rattle.reed_solomon.specs.Steps.{Mended, Rebuilds, Listed};

use pieces::{Choice, Pieces};
use settings::Refusal;
use wire::Layout;

// n, t, the layout, the slots and the block come one by one down to `decode_slots`, which makes a Pieces: the clauses name each
// (`Answers n t layout slots`). t ≤ 5 is asked where a product of lengths must not overflow, of functions that have a t and no Pieces: a struct for one
// number is no plainer.

// Whether slot j is present.
fn has_piece(slots: &[u8], layout: Layout, j: usize) -> bool
    ensures { result ≡ has_piece layout slots.now j }
{
    1 <= wire::message(slots, layout, j).len()
}

// The points of the present ones of n slots, rising, into the front of xs; how many they are. (With no heap there is no list to collect them in.)
fn list_points(n: usize, layout: Layout, slots: &[u8], xs: &mut [u8]) -> usize
    requires { (n ≤ 16) × (n ≤ length xs.old) }
    ensures { Listed n layout slots.now result xs.new }
{
    let mut count: usize = 0;
    for i in 0..n {
        let j = i + 1;
        if has_piece(slots, layout, j) {
            xs[count] = j as u8;
            count += 1;
        }
    }
    count
}

// A guess at the stripes of the block from `from` on; those before it stay.
// cols and tmp are two parameters, here and in `mend`, `mend_all` and `comparison::check`: a call that lends one field of a struct behind a reference and
// reads or lends another has no proof, nor has one that lends parts of fields taken by a pattern.
fn guess_rest(
    pieces: &Pieces,
    from: usize,
    choice: Choice,
    block: &mut [u8],
    cols: &mut [u8; 768],
    tmp: &mut [u8; 128],
)
    requires { (from ≤ pieces.now.layout.length) × (length block.old ≡ pieces.now.layout.length * (pieces.now.t + 1)) }
    ensures { take (from * (pieces.now.t + 1)) block.new ≡ take (from * (pieces.now.t + 1)) block.old }
{
    let rows = pieces.layout.length - from;
    let size = rows * (pieces.t + 1);
    let a = from * (pieces.t + 1);
    guessing::guess(
        pieces,
        from,
        choice,
        &mut cols[..size],
        &mut tmp[..rows],
        &mut block[a..],
    );
}

// Stripe s of the block is decoded, and those after it are guessed; those before it stay. None where no bytes of stripe s are right. (cols and tmp: see
// `guess_rest`.)
fn mend(
    pieces: &Pieces,
    s: usize,
    marks: u16,
    block: &mut [u8],
    cols: &mut [u8; 768],
    tmp: &mut [u8; 128],
) -> Option<Choice>
    requires { (s < pieces.now.layout.length) × (length block.old ≡ pieces.now.layout.length * (pieces.now.t + 1)) }
    ensures { Mended pieces.now.t pieces.now.layout pieces.now.slots.now pieces.now.points.now s result block.old block.new }
{
    let a = s * (pieces.t + 1);
    let e = a + (pieces.t + 1);
    let choice = settling::settle(pieces, s, marks, &mut block[a..e])?;
    guess_rest(pieces, s + 1, choice, block, cols, tmp);
    Some(choice)
}

// The block with every stripe right, from one that was guessed, and the marks of the slots that do not hold their piece of it: its first wrong stripe
// is decoded, and the rest guessed anew, until none is wrong. (cols and tmp: see `guess_rest`.)
fn mend_all(
    pieces: &Pieces,
    marks: u16,
    block: &mut [u8],
    cols: &mut [u8; 768],
    tmp: &mut [u8; 128],
) -> Option<u16>
    requires { length block.old ≡ pieces.now.layout.length * (pieces.now.t + 1) }
    ensures { Rebuilds pieces.now.n pieces.now.t pieces.now.layout pieces.now.slots.now result block.new }
{
    let mut known = marks;
    let mut compared = comparison::check(pieces, 0, block, cols, tmp);
    while let Some(s) = compared.wrong {
        known = mend(pieces, s, known, block, cols, tmp)?.marks;
        compared = comparison::check(pieces, s + 1, block, cols, tmp);
    }
    Some(compared.named)
}

// The block and its marks from the present slots. The last stripe is decoded first, so that slots that turned false are known, and all are guessed from
// there.
fn decode_present(pieces: &Pieces, block: &mut [u8]) -> Option<u16>
    requires { length block.old ≡ pieces.now.layout.length * (pieces.now.t + 1) }
    ensures { Rebuilds pieces.now.n pieces.now.t pieces.now.layout pieces.now.slots.now result block.new }
{
    let mut m = [0u8; 6];
    let mut cols = [0u8; 768];
    let mut tmp = [0u8; 128];
    let last = pieces.layout.length - 1;
    let w = pieces.t + 1;
    let choice = settling::settle(pieces, last, 0, &mut m[..w])?;
    guess_rest(pieces, 0, choice, block, &mut cols, &mut tmp);
    mend_all(pieces, choice.marks, block, &mut cols, &mut tmp)
}

// The same from n slots, the points of the present ones of which are written to `points`. Fewer than t + 1 determine nothing.
fn decode_slots(
    n: usize,
    t: usize,
    layout: Layout,
    slots: &[u8],
    points: &mut [u8],
    block: &mut [u8],
) -> Option<u16>
    requires { Coded n t layout.length × (n ≤ length points.old) × (length block.old ≡ layout.length * (t + 1)) }
    ensures { Rebuilds n t layout slots.now result block.new }
{
    let count = list_points(n, layout, slots, points);
    if count <= t {
        return None;
    }
    let pieces = Pieces {
        n,
        t,
        layout,
        slots,
        points: &points[..count],
    };
    decode_present(&pieces, block)
}

// Whether a list is exactly as long as a block of k stripes, whose length may be past every list's.
fn is_block(block: &[u8], t: usize, k: usize) -> bool
    ensures { result ≡ eqb (length block.now) (block_length k t) }
{
    block.len() == k.saturating_mul(t).saturating_add(k)
}

fn decode_fits(n: usize, t: usize, layout: Layout, slots: &[u8], block: &[u8]) -> bool
    ensures { result ≡ decode_fits n t layout slots.now block.now }
{
    wire::holds_exactly(slots, n, layout) && is_block(block, t, layout.length)
}

fn encode_fits(k: usize, t: usize, block: &[u8], piece: &[u8]) -> bool
    ensures { result ≡ encode_fits k t block.now piece.now }
{
    is_block(block, t, k) && piece.len() == k
}

// The block and its marks, or zeros.
fn rebuild(n: usize, t: usize, layout: Layout, slots: &[u8], block: &mut [u8]) -> Option<u16>
    requires { decode_refusal n t layout slots.now block.old ≡ 0 }
    ensures { Answers n t layout slots.now block.old (decoded_of (Ok result)) block.new }
{
    let mut points = [0u8; 16];
    let named = decode_slots(n, t, layout, slots, &mut points, block);
    if named.is_none() {
        block.fill(0);
    }
    named
}

// Decoding: the block in each stripe of which twice the number of present values that differ from their code is at most N - t - 1, with N of the n
// slots present, into the lent block, and the marks of the slots that do not hold their piece of it; none and zeros where there is no such block. The
// relation determines the answer and the block that is left: at most one block meets the rule (laws `decodes_unique`, `answers_unique`, `one_decoded`).
// Shut out: must-fail/guess_unchecked; must-fail/bound_off_by_one; must-fail/stripe_bound_off_by_one; must-fail/another_point;
// must-fail/absent_as_zeros; must-fail/absent_differ; must-fail/points_renumbered; must-fail/beyond_keeps_the_block;
// must-fail/refusal_clears_the_block; must-fail/named_without_absent; must-fail/named_by_first_stripe.
pub fn decode(
    n: usize,
    t: usize,
    layout: Layout,
    slots: &[u8],
    block: &mut [u8],
) -> Result<Option<u16>, Refusal>
    ensures { Answers n t layout slots.now block.old (decoded_of result) block.new }
{
    let fits = decode_fits(n, t, layout, slots, block);
    settings::decoding_refusal(n, t, layout.length, fits)?;
    Ok(rebuild(n, t, layout, slots, block))
}

// The values at x of the stripes of a block, into `piece`, by way of `column`.
fn encode_columns(t: usize, block: &[u8], x: u8, column: &mut [u8], piece: &mut [u8])
    requires { (t ≤ 5) × (length block.now ≡ length piece.old * (t + 1)) × (length column.old ≡ length piece.old) }
    ensures { piece.new ≡ piece_of (length piece.old) t block.now x }
{
    let w = t + 1;
    columns::take_column(block, w, t, piece);
    for j in (0..t).rev() {
        columns::take_column(block, w, j, column);
        gf256::horner_at_point(piece, x, column);
    }
}

// The same, with bytes of its own for the columns: with no heap an array of fixed size, lent as far as it is needed.
fn encode_piece(t: usize, block: &[u8], x: u8, piece: &mut [u8])
    requires { (t ≤ 5) × (length piece.old ≤ 128) × (length block.now ≡ length piece.old * (t + 1)) }
    ensures { piece.new ≡ piece_of (length piece.old) t block.now x }
{
    let k = piece.len();
    let mut column = [0u8; 128];
    encode_columns(t, block, x, &mut column[..k], piece);
}

// Coding: piece `number` of a block's coding, into the lent piece.
// Shut out: Ok where it is refused; each stripe without its last byte; must-fail/piece_of_another.
pub fn encode(
    n: usize,
    t: usize,
    k: usize,
    number: usize,
    block: &[u8],
    piece: &mut [u8],
) -> Result<(), Refusal>
    ensures { encoded (number_of result) piece.new ≡ encode_of n t k number block.now piece.old }
{
    let fits = encode_fits(k, t, block, piece);
    settings::encoding_refusal(n, t, k, number, fits)?;
    encode_piece(t, block, number as u8, piece);
    Ok(())
}

// Whether the rows that coding tries let the settings, the number and the lengths pass; `fits` is the test of what is lent beside the block.
// Shut out: `fits` not asked; k for the number.
pub fn is_ready(n: usize, t: usize, k: usize, number: usize, block: &[u8], fits: bool) -> bool
    ensures { result ≡ is_ready n t k number block.now fits }
{
    is_block(block, t, k) && settings::encoding_refusal(n, t, k, number, fits).is_ok()
}
