// The code and the star by themselves: coding, decoding, and the star of rows of marks or of missing pairs, with numbers and buffers as the C interface
// needs them.
ghost use Rattle.std.specs.Prelude.{◌≡◌, length};
ghost use Rattle.settings.specs.Number.{number_of};
ghost use Rattle.star.specs.Star.{four};
ghost use Rattle.wire.specs.Slot.{layout_with};
ghost use Rattle.reed_solomon.specs.Encode.{encoded, encode_of};
ghost use Rattle.boards.specs.Boards.{returned, DecodeLeaves, set_bytes, star_returned, star_bytes, pair_bytes, pair_star_bytes};

use crate::{fits, row_number};
use settings::Refusal;
use star::Sets;

// What decoding answers where no block meets the rule.
const BEYOND: u8 = 255;

// Piece `number` of a block's coding.
// Shut out: piece k; k and t the other way round.
pub fn potekawhi_encode(
    n: usize,
    t: usize,
    k: usize,
    number: usize,
    block: &[u8],
    piece: &mut [u8],
) -> u8
    ensures { encoded result piece.new ≡ encode_of n t k number block.now piece.old }
{
    row_number(reed_solomon::encode(n, t, k, number, block, piece))
}

// Decoding of slots of the run `run`: the block to the lent bytes and its marks to the lent number, by the relation `Answers`.
// Shut out: 0 for beyond; n and t the other way round; run 0, whatever is given; the marks cleared where it is refused, kept for beyond; must-fail/beyond_as_a_row.
pub fn potekawhi_decode(
    n: usize,
    t: usize,
    k: usize,
    run: u16,
    slots: &[u8],
    block: &mut [u8],
    named: &mut u16,
) -> u8
    ensures { DecodeLeaves n t (layout_with run k) slots.now block.old named.old result block.new named.new }
{
    let layout = wire::layout_with(run, k);
    match reed_solomon::decode(n, t, layout, slots, block) {
        Ok(Some(marks)) => {
            *named = marks;
            0
        }
        Ok(None) => {
            *named = 0;
            BEYOND
        }
        Err(refusal) => refusal.into(),
    }
}

// The four sets as rows of marks.
fn put_sets(s: Sets, sets: &mut [u8])
    requires { length sets.old ≡ 8 }
    ensures { sets.new ≡ set_bytes (four s) }
{
    let mut rows = [0u16; 16];
    rows[..4].copy_from_slice(&[s.c, s.d, s.f, s.e]);
    bitset::write_rows(sets, &rows, 16);
}

// The star of rows, with the refusal itself.
#[tactic(auto, using(star::proofs::Laws::star_of_lem, star::proofs::Laws::no_sets_number), unfolding(crate::specs::Boards::star_bytes, crate::specs::Boards::star_returned))]
fn star(n: usize, t: usize, rows: &[u8], sets: &mut [u8]) -> Result<(), Refusal>
    ensures { returned (number_of result) sets.new ≡ star_bytes n t rows.now sets.old }
{
    fits(rows, 32)?;
    fits(sets, 8)?;
    let found = star::find(&state_bytes::get_rows(rows), n, t)?;
    put_sets(found, sets);
    Ok(())
}

// The star of the rows in the lent bytes, its four sets to others.
// Shut out: E for F; 9 bytes for the sets.
pub fn potekawhi_star(n: usize, t: usize, rows: &[u8], sets: &mut [u8]) -> u8
    ensures { returned result sets.new ≡ star_bytes n t rows.now sets.old }
{
    row_number(star(n, t, rows, sets))
}

// The missing pairs, with the refusal itself.
#[tactic(auto, unfolding(crate::specs::Boards::pair_bytes))]
fn missing_pairs(n: usize, rows: &[u8], pairs: &mut [u8]) -> Result<(), Refusal>
    ensures { returned (number_of result) pairs.new ≡ pair_bytes n rows.now pairs.old }
{
    fits(rows, 32)?;
    fits(pairs, 15)?;
    pairs.copy_from_slice(&graph::bits_of(&state_bytes::get_rows(rows), n));
    Ok(())
}

// The missing pairs of the rows in the lent bytes, to others.
// Shut out: those of 16 controllers whatever n is; 0 for a wrong length.
pub fn potekawhi_missing_pairs(n: usize, rows: &[u8], pairs: &mut [u8]) -> u8
    ensures { returned result pairs.new ≡ pair_bytes n rows.now pairs.old }
{
    row_number(missing_pairs(n, rows, pairs))
}

// The star of missing pairs, with the refusal itself.
#[tactic(auto, unfolding(crate::specs::Boards::pair_star_bytes))]
fn star_of_pairs(n: usize, t: usize, pairs: &[u8], sets: &mut [u8]) -> Result<(), Refusal>
    ensures { returned (number_of result) sets.new ≡ pair_star_bytes n t pairs.now sets.old }
{
    let Ok(bits) = <[u8; 15]>::try_from(pairs) else {
        return Err(Refusal::Length);
    };
    fits(sets, 8)?;
    let found = star::of_bits(bits, n, t)?;
    put_sets(found, sets);
    Ok(())
}

// The star of the missing pairs in the lent bytes, its four sets to others.
// Shut out: n and t the other way round; 9 bytes for the sets.
pub fn potekawhi_star_of_pairs(n: usize, t: usize, pairs: &[u8], sets: &mut [u8]) -> u8
    ensures { returned result sets.new ≡ pair_star_bytes n t pairs.now sets.old }
{
    row_number(star_of_pairs(n, t, pairs, sets))
}
