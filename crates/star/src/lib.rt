// The star of a neighbour graph and its core (document 01, 'Star and core'). Index i stands for controller i + 1.
#![tactic(auto)]

ghost use Rattle.std.specs.Prelude.{◌≡◌, not, ◌&&◌, ◌^◌, ◌<◌, ◌≤◌, reverse};
ghost use Rattle.bitset.specs.Set.{member, set_of, size_of, removed, intersection, difference};
ghost use Rattle.graph.specs.Neighbour.{neighbour, missing};
ghost use Rattle.graph.specs.Bits.{adjacent};
ghost use Rattle.matching.specs.Matching.{matched};
ghost use Rattle.matching.specs.Answer.{complement, pairs_of};
ghost use Rattle.star.specs.Star.{set_C, lacks, at_least, four, sets_of, sets_from, is_large, IsStar};
ghost use Rattle.star.specs.Steps.{Below};

use bitset::{below, difference, insert, intersection, member, remove, select, size};
use graph::bits_of;
use matching::{Matching, complement, largest};
use settings::{Refusal, star_refusal};

// The sets C, D, F and E, of which E is the core. All four are empty where no core is found, as `no_sets 0` of specs/ has it and C is given them.
#[derive(Clone, Copy, PartialEq, Eq)]
pub struct Sets {
    pub c: u16,
    pub d: u16,
    pub f: u16,
    pub e: u16,
}

// No core is found.
const NONE: Sets = Sets {
    c: 0,
    d: 0,
    f: 0,
    e: 0,
};

// The matched, of the pairs of a matching.
fn matched_set(pairs: &[(u8, u8)]) -> u16
    ensures { result ≡ set_of 16 (matched (reverse pairs.now)) }
{
    let mut s: u16 = 0;
    for p in pairs {
        s = insert(insert(s, p.0 as usize), p.1 as usize);
    }
    s
}

// A graph of n controllers, by the bits of its missing pairs, and these as rows.
#[derive(Clone, Copy)]
struct Graph {
    bits: [u8; 15],
    n: usize,
    rows: [u16; 16],
    ghost few: { n ≤ 16 },
    ghost missing: { rows ≡ complement n (adjacent bits) },
}

impl Graph {
    // The non-neighbours of i.
    fn missing(&self, i: usize) -> u16
        requires { i < 16 }
        ensures { result ≡ missing self.now.n (adjacent self.now.bits) i }
    {
        self.rows[i]
    }

    // Those that are left of c with the pair (a, b): neither an end nor a non-neighbour of both.
    fn left_by(&self, c: u16, a: usize, b: usize) -> u16
        requires { (a < 16) × (b < 16) }
        ensures { result ≡ difference (removed (removed c a) b) (intersection (missing self.now.n (adjacent self.now.bits) a) (missing self.now.n (adjacent self.now.bits) b)) }
    {
        let struck = intersection(self.missing(a), self.missing(b));
        difference(remove(remove(c, a), b), struck)
    }

    // The set C: the unmatched, without those that are non-neighbours of both ends of one pair.
    fn set_c(&self, pairs: &[(u8, u8)]) -> u16
        requires { Below self.now.n (reverse pairs.now) }
        ensures { result ≡ set_C self.now.n (adjacent self.now.bits) (reverse pairs.now) }
    {
        let mut c = below(self.n);
        for p in pairs {
            c = self.left_by(c, p.0 as usize, p.1 as usize);
        }
        c
    }

    // Whether i is matched and has a non-neighbour in the set c.
    fn in_b(&self, u: u16, c: u16, i: usize) -> bool
        requires { (c < 2 ^ self.now.n) × (i < self.now.n) }
        ensures { result ≡ (member u i && lacks self.now.n (adjacent self.now.bits) c i) }
    {
        member(u, i) && 0 < intersection(self.missing(i), c)
    }

    // The set D, from the matched u and the set c: all but the matched with a non-neighbour in c.
    fn set_d(&self, u: u16, c: u16) -> u16
        requires { c < 2 ^ self.now.n }
        ensures { result ≡ set_of self.now.n (λ i. not (member u i && lacks self.now.n (adjacent self.now.bits) c i)) }
    {
        select(self.n, |i| !self.in_b(u, c, i))
    }

    // Those with at least k neighbours in the set s.
    fn at_least(&self, s: u16, k: usize) -> u16
        requires { s < 2 ^ self.now.n }
        ensures { result ≡ at_least self.now.n (adjacent self.now.bits) s k }
    {
        select(self.n, |i| k <= size(difference(s, self.missing(i))))
    }

    // The four sets of a matching.
    fn sets(&self, t: usize, m: Matching) -> Sets
        requires { (t ≤ self.now.n) × Below self.now.n (pairs_of m) }
        ensures { four result ≡ sets_from self.now.n t (adjacent self.now.bits) (pairs_of m) }
    {
        let pairs = m.pairs();
        let c = self.set_c(pairs);
        let d = self.set_d(matched_set(pairs), c);
        let f = self.at_least(c, t + 1);
        let e = self.at_least(f, 2 * t + 1);
        Sets { c, d, f, e }
    }
}

// Whether the four sets are large enough.
fn is_large(n: usize, t: usize, s: Sets) -> bool
    requires { (n ≤ 16) × (t ≤ n) }
    ensures { result ≡ is_large n t (four s) }
{
    if size(s.c) + 2 * t < n || size(s.d) + t < n {
        return false;
    }
    2 * t + 1 <= size(s.f) && 2 * t + 1 <= size(s.e)
}

// The star of a graph given as 120 bits, of which those of pairs below n are read. The relation holds of one answer (`star_is_one`).
// Shut out: must-fail/struck_kept; must-fail/f_threshold; must-fail/e_threshold; must-fail/matched_past_n.
pub fn of_bits(bits: [u8; 15], n: usize, t: usize) -> Result<Sets, Refusal>
    ensures { IsStar n t (adjacent bits) (sets_of result) }
{
    star_refusal(n, t)?;
    let graph = Graph {
        bits,
        n,
        rows: complement(bits, n),
    };
    let sets = graph.sets(t, largest(bits, n));
    if is_large(n, t, sets) {
        return Ok(sets);
    }
    Ok(NONE)
}

// The star of the graph of 16 rows of marks, of which those of 0 .. n - 1 are read, and of them the marks of 0 .. n - 1. It is that of the
// rows' missing pairs (`star_of_bits_lem`).
// Shut out: the star of the bits of the first t controllers; n and t the other way round.
pub fn find(rows: &[u16; 16], n: usize, t: usize) -> Result<Sets, Refusal>
    ensures { IsStar n t (neighbour rows.now) (sets_of result) }
{
    of_bits(bits_of(rows, n), n, t)
}
