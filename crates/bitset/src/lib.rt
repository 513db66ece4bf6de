// Sets of controllers as 16-bit numbers, index i for controller i + 1, and rows of such sets in message bytes.
// Every function is total: an index past 15 is in no set.
#![tactic(auto)]

ghost use Rattle.std.specs.Prelude.{◌≡◌, true, ℕ, ◌<◌, min, eqb, MatchOption};
ghost use Rattle.lists.specs.Fill.{filled};
ghost use Rattle.bitset.specs.Set.{member, set_of, size_of, inserted, removed, intersection, difference, union, restricted, lowest_of, Selected};
ghost use Rattle.bitset.specs.Row.{row_of, row_byte, rows_length};

use lists::word;

// Whether i is in the set s.
// Shut out: 15 in no set; the digit 0 taken for a member.
pub fn member(s: u16, i: usize) -> bool
    ensures { result ≡ member s i }
{
    i < 16 && (s >> i) % 2 == 1
}

// The set of i alone; empty where i is past 15.
fn single(i: usize) -> u16
    ensures { result ≡ set_of 16 (λ j. eqb j i) }
{
    if i < 16 { 1 << i } else { 0 }
}

// The set s with i in it; s where i is past 15.
// Shut out: 15 never inserted; another member inserted.
pub fn insert(s: u16, i: usize) -> u16
    ensures { result ≡ inserted s i }
{
    union(s, single(i))
}

// The set s without i.
// Shut out: 15 never removed; another member removed.
pub fn remove(s: u16, i: usize) -> u16
    ensures { result ≡ removed s i }
{
    difference(s, single(i))
}

// The members of both sets.
// Shut out: a; b.
pub fn intersection(a: u16, b: u16) -> u16
    ensures { result ≡ intersection a b }
{
    a & b
}

// The members of a that are not in b.
// Shut out: the members of one of the two sets only; the members of b that are not in a.
pub fn difference(a: u16, b: u16) -> u16
    ensures { result ≡ difference a b }
{
    a ^ (a & b)
}

// The members of either set.
// Shut out: a; b.
pub fn union(a: u16, b: u16) -> u16
    ensures { result ≡ union a b }
{
    a | b
}

// How many members the set s has.
// Shut out: the least member for the size; a size of the machine's that is not the count of members.
pub fn size(s: u16) -> usize
    ensures { result ≡ size_of s }
{
    s.count_ones() as usize
}

// The least member of the set s; none where it is empty.
// Shut out: the highest member; the size for the least member; 16 for the empty set; none for the set of 15.
pub fn lowest(s: u16) -> Option<usize>
    ensures { MatchOption result (s ≡ 0) (λ i. (i ≡ lowest_of s) × (i < 16)) }
{
    if s == 0 {
        None
    } else {
        Some(s.trailing_zeros() as usize)
    }
}

// The members of s below n.
// Shut out: nothing cut off at n 15; the empty set from 16 on.
pub fn restrict(s: u16, n: usize) -> u16
    ensures { result ≡ restricted s n }
{
    if n < 16 { s % (1 << n) } else { s }
}

// The set of all indices below n, of 16 at most.
// Shut out: 15 missing; n itself a member.
pub fn below(n: usize) -> u16
    ensures { result ≡ set_of (min n 16) (λ _. true) }
{
    if n < 16 { (1 << n) - 1 } else { u16::MAX }
}

// The set of the indices below n, of 16 at most, that pass the test.
// Shut out: those that fail; must-fail/last_not_selected.
pub fn select<F: Fn(usize) -> bool>(n: usize, test: F) -> u16
    requires { (i : ℕ) → i < min n 16 → F.pre test i }
    ensures { Selected (F.post test) (min n 16) result }
{
    let mut s: u16 = 0;
    for i in 0..n.min(16) {
        if test(i) {
            s = insert(s, i);
        }
    }
    s
}

// The set in row r of the message m, of the indices below n; empty where m does not hold the row whole.
// Shut out: the high byte first; half a row read past the end.
pub fn read_row(m: &[u8], n: usize, r: usize) -> u16
    ensures { result ≡ row_of n m.now r }
{
    if m.len() / 2 <= r {
        return 0;
    }
    restrict(word(m[2 * r], m[2 * r + 1]), n)
}

// Byte b of the message that holds the rows.
fn row_byte(rows: &[u16; 16], n: usize, b: usize) -> u8
    requires { b < 32 }
    ensures { result ≡ row_byte n rows.now b }
{
    restrict(rows[b / 2], n).to_le_bytes()[b % 2]
}

// How many bytes n rows take, of 16 at most.
// Shut out: 30 for 16 rows; a byte for each row.
pub fn rows_length(n: usize) -> usize
    ensures { result ≡ rows_length n }
{
    2 * n.min(16)
}

// Writes the first n rows, of 16 at most, without the bits past n, as far as `out` reaches; the rest of `out` stays.
// Shut out: bits past n written; a byte written past the end.
pub fn write_rows(out: &mut [u8], rows: &[u16; 16], n: usize)
    ensures { out.new ≡ filled (row_byte n rows.now) (rows_length n) out.old }
{
    for b in 0..rows_length(n).min(out.len()) {
        out[b] = row_byte(rows, n, b);
    }
}
