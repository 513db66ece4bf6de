// The neighbour graph of rows of marks, held as its missing pairs (document 02, U9): 120 bits, one for each pair of different indices below
// 16, in 15 bytes. Index i stands for controller i + 1.
#![tactic(auto)]

ghost use Rattle.std.specs.Prelude.{◌≡◌, not, ◌&&◌, ◌||◌, ◌-◌, ◌*◌, ◌^◌, ◌<◌, eqb, ltb};
ghost use Rattle.lists.specs.Sum.{sum, ind};
ghost use Rattle.bitset.specs.Set.{member, set_of};
ghost use Rattle.graph.specs.Neighbour.{neighbour, missing};
ghost use Rattle.graph.specs.Pairs.{place};
ghost use Rattle.graph.specs.Bits.{bit, bits_of, adjacent};

use bitset::{insert, member};
use lists::low;

// Two different indices below 16, the smaller first.
#[derive(Clone, Copy)]
struct Pair {
    small: usize,
    large: usize,
    ghost order: { small < large },
    ghost below: { large < 16 },
}

impl Pair {
    // The place in the order of the pairs: after those with a smaller `small`, and of those with the same one, after those with a smaller `large`.
    fn place(self) -> usize
        ensures { (result ≡ place self.small self.large) × (result < 120) }
    {
        first_place(self.small) + (self.large - self.small - 1)
    }

    // Whether both are below n and do not mark each other.
    fn is_missing(self, rows: &[u16; 16], n: usize) -> bool
        ensures { result ≡ (ltb self.large n && not (neighbour rows.now self.small self.large)) }
    {
        self.large < n
            && !(member(rows[self.small], self.large) && member(rows[self.large], self.small))
    }
}

// The place of the first pair whose smaller index is i: 15 + 14 + .., i summands.
fn first_place(i: usize) -> usize
    requires { i < 16 }
    ensures { (result ≡ sum i (λ x. 15 - x)) × (result < 128) }
{
    i * (31 - i) / 2
}

// The byte s, with bit k set where `yes` says so.
fn with_bit(s: u8, k: usize, yes: bool) -> u8
    ensures { result ≡ set_of 8 (λ i. member s i || (yes && eqb i k)) }
{
    if yes { low(insert(u16::from(s), k)) } else { s }
}

// The graph of the rows as missing pairs, of the indices below n.
// Shut out: must-fail/place_off_by_one; must-fail/larger_first; must-fail/ordered_by_larger; must-fail/bit_past_n.
pub fn bits_of(rows: &[u16; 16], n: usize) -> [u8; 15]
    ensures { result ≡ bits_of n (neighbour rows.now) }
{
    let mut bits = [0u8; 15];
    for i in 0..16 {
        for j in i + 1..16 {
            let pair = Pair { small: i, large: j };
            let p = pair.place();
            bits[p / 8] = with_bit(bits[p / 8], p % 8, pair.is_missing(rows, n));
        }
    }
    bits
}

// The bit at place p, as a number.
fn digit_at(bits: [u8; 15], p: usize) -> u16
    requires { p < 120 }
    ensures { result ≡ ind (bit bits p) }
{
    (u16::from(bits[p / 8]) >> (p % 8)) % 2
}

// 1 where i and j are not neighbours, else 0.
fn missing_digit(bits: [u8; 15], i: usize, j: usize) -> u16
    requires { (i < 16) × (j < 16) }
    ensures { result ≡ ind (not (adjacent bits i j)) }
{
    if i == j {
        0
    } else {
        let pair = Pair {
            small: i.min(j),
            large: i.max(j),
        };
        digit_at(bits, pair.place())
    }
}

// b times 2 to the j.
fn shifted(b: u16, j: usize) -> u16
    requires { (b < 2) × (j < 16) }
    ensures { result ≡ b * 2 ^ j }
{
    b << j
}

// The set of those with whom i makes a missing pair below n; empty where i is not below n and 16. Digits are added, not tested one by one:
// a branch on each would be mispredicted for half of random bits.
// Shut out: must-fail/bits_past_n_read; must-fail/self_not_neighbour.
pub fn missing_row(bits: [u8; 15], n: usize, i: usize) -> u16
    ensures { result ≡ missing n (adjacent bits) i }
{
    let m = n.min(16);
    if m <= i {
        return 0;
    }
    let mut s: u16 = 0;
    for j in 0..m {
        s += shifted(missing_digit(bits, i, j), j);
    }
    s
}
