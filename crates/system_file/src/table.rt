// The table of places: where in the file the message of each round, sender and receiver starts. A place is 0 where there is none: the definitions speak of
// places as numbers (`table_of`, `place_in`), and an Option<u16> would take twice the memory.
ghost use Rattle.std.specs.Prelude.{◌≡◌, cond, not, Some, None, length};
ghost use Rattle.system_file.specs.Table.{table_size, table_index, in_table, place_in, some_place};
ghost use Rattle.system_file.specs.Steps.{is_to, is_taken, is_given, row_with, is_new, table_with, Enters, said};

use crate::messages::Said;

// How many senders the table has for a round, and how many receivers for a sender.
const WIDTH: usize = 16;

// Where the message of round r from f to j starts in the file, as the table has it.
// Shut out: the place of the message from j to f; round 23 without messages.
pub fn place_of(places: &[u16], r: usize, f: usize, j: usize) -> Option<usize>
    ensures { result ≡ some_place (place_in places.now r f j) }
{
    let at = index(r, f, j)?;
    let place = *places.get(at)?;
    if place == 0 {
        return None;
    }
    Some(usize::from(place))
}

// The index of the place in the table; none outside.
#[tactic(auto, unfolding(crate::specs::Table::in_table, crate::specs::Table::table_index))]
fn index(r: usize, f: usize, j: usize) -> Option<usize>
    ensures { result ≡ cond (in_table r f j) (Some (table_index r f j)) None }
{
    match (r, f, j) {
        (1..=23, 1..=16, 1..=16) => Some((r - 1) * 256 + (f - 1) * 16 + (j - 1)),
        _ => None,
    }
}

// Enters the place of a message, unless one of its receivers has a message of this round from this sender; whether it did.
pub(crate) fn enter(places: &mut [u16], m: Said) -> bool
    requires { Enters (said m) × (length places.old ≡ table_size) }
    ensures value { result ≡ is_new places.old (said m) }
    ensures places_after { places.new ≡ cond result (table_with places.old (said m)) places.old }
{
    let base = ((m.round - 1) * WIDTH + (m.from - 1)) * WIDTH;
    enter_row(&mut places[base..base + WIDTH], m.to, m.place as u16)
}

// The same in the row of the round and the sender. The row is a slice of 16, here and below: of what is written through the `&mut [u16; 16]` that
// `as_mut_array` or `try_from` lends of a slice, a proof knows nothing afterwards.
fn enter_row(row: &mut [u16], to: usize, place: u16) -> bool
    requires { length row.old ≡ 16 }
    ensures value { result ≡ not (is_given row.old to) }
    ensures row_after { row.new ≡ cond result (row_with row.old to place) row.old }
{
    if is_given(row, to) {
        return false;
    }
    fill(row, to, place);
    true
}

// Whether a receiver has a place in the row.
fn is_given(row: &[u16], to: usize) -> bool
    requires { length row.now ≡ 16 }
    ensures { result ≡ is_given row.now to }
{
    for (j, x) in row.iter().enumerate() {
        if is_taken(*x, to, j + 1) {
            return true;
        }
    }
    false
}

// Whether x is a place, and j a receiver.
#[tactic(auto, unfolding(crate::specs::Steps::is_taken))]
fn is_taken(x: u16, to: usize, j: usize) -> bool
    ensures { result ≡ is_taken x to j }
{
    x != 0 && is_to(to, j)
}

// Whether a message to `to` is for j.
#[tactic(auto, unfolding(crate::specs::Steps::is_to))]
fn is_to(to: usize, j: usize) -> bool
    ensures { result ≡ is_to to j }
{
    to == 0 || to == j
}

// The place in the row for each receiver.
fn fill(row: &mut [u16], to: usize, place: u16)
    requires { length row.old ≡ 16 }
    ensures { row.new ≡ row_with row.old to place }
{
    for (j, x) in row.iter_mut().enumerate() {
        if is_to(to, j + 1) {
            *x = place;
        }
    }
}
