// The first largest matching of the pairs that are not neighbours (document 01, 'Star and core'). The graph comes as its missing pairs
// (document 02, U9), of which the search makes its rows once. Index i stands for controller i + 1.
#![tactic(auto)]

ghost use Rattle.std.specs.Prelude.{◌≡◌, true, [], ◌+◌, ◌<◌, ◌≤◌, min, set, take};
ghost use Rattle.graph.specs.Bits.{adjacent};
ghost use Rattle.matching.specs.Answer.{complement, stored, IsFirstLargest};
ghost use Rattle.matching.specs.Steps.{In, Symmetric, Within, AtMost, NoneOfSize, Closed, Searched, Largest};

use bitset::{below, difference, insert, intersection, lowest, member, remove, size, union};
use graph::missing_row;

// A matching: its pairs, each the smaller end first, the first pair last; zeros after them.
// With no heap an array of fixed size, and how many of its places count.
#[derive(Clone, Copy, PartialEq, Eq)]
pub struct Matching {
    count: usize,
    pairs: [(u8, u8); 8],
}

impl Matching {
    // No pair.
    fn empty() -> Matching
        ensures { result ≡ stored [] }
    {
        Matching {
            count: 0,
            pairs: [(0, 0); 8],
        }
    }

    // With the pair (v, w), as its first.
    fn with(mut self, v: usize, w: usize) -> Matching
        requires { (self.count < 8) × (v < 256) × (w < 256) }
        ensures { (result.count ≡ self.count + 1) × (result.pairs ≡ set self.pairs self.count (v, w)) }
    {
        self.pairs[self.count] = (v as u8, w as u8);
        self.count += 1;
        self
    }

    // The pairs, the first one last.
    // Shut out: one pair fewer; all eight places; must-fail/eighth_pair_left.
    pub fn pairs(&self) -> &[(u8, u8)]
        ensures { result.now ≡ take self.now.count self.now.pairs }
    {
        &self.pairs[..self.count.min(8)]
    }
}

// The missing pairs below n as rows: row i has those with whom i makes one.
// Shut out: must-fail/pairs_past_n; the row of 0 everywhere.
pub fn complement(bits: [u8; 15], n: usize) -> [u16; 16]
    ensures { result ≡ complement (min n 16) (adjacent bits) }
{
    let mut graph = [0; 16];
    for (i, row) in graph.iter_mut().enumerate() {
        *row = missing_row(bits, n, i);
    }
    graph
}

// A graph, by a row for each index: those that it joins with it. x is in the row of y where y is in that of x.
#[derive(Clone, Copy)]
struct Graph {
    rows: [u16; 16],
    ghost symmetric: { Symmetric rows },
}

impl Graph {
    // The members of s that can be reached from its member v along the graph, within s.
    fn component(&self, s: u16, v: usize) -> u16
        requires { In s v }
        ensures { In result v × Closed self.now.rows s result }
    {
        let mut c = insert(0, v);
        let mut unseen = s;
        let mut next = c;
        while let Some(x) = lowest(next) {
            unseen = remove(unseen, x);
            c = union(c, intersection(self.rows[x], s));
            next = intersection(c, unseen);
        }
        c
    }

    // How many pairs a matching within s can have: half the members of each component.
    fn halves(&self, s: u16) -> usize
        ensures { (result ≤ 128) × AtMost (Within self.now.rows s) result }
    {
        let mut left = s;
        let mut sum: usize = 0;
        while let Some(v) = lowest(left) {
            let c = self.component(left, v);
            left = difference(left, c);
            sum += size(c) / 2;
        }
        sum
    }

    // Of the members of s that have partners within s, the one whose number of them wins against those of all before it.
    fn champion<F: Fn(usize, usize) -> bool>(&self, s: u16, wins: F) -> Option<usize>
        requires { F.IsAlwaysCallable wins }
    {
        let mut best: Option<(usize, usize)> = None;
        for (i, row) in self.rows.iter().enumerate() {
            if member(s, i) {
                let partners = size(intersection(*row, s));
                let first = match best {
                    Some((_, most)) => wins(partners, most),
                    None => true,
                };
                if 0 < partners && first {
                    best = Some((i, partners));
                }
            }
        }
        best.map(|(i, _)| i)
    }

    // The member of s that has the most partners within s.
    fn with_most(&self, s: u16) -> Option<usize> {
        self.champion(s, |partners, most| most < partners)
    }

    // A partner within s of the member of s that has the fewest there.
    fn partner_of_fewest(&self, s: u16) -> Option<usize> {
        let i = self.champion(s, |partners, fewest| partners < fewest)?;
        let row = self.rows.get(i)?;
        lowest(intersection(*row, s))
    }

    // Whether x members of s, for some x below k, can be taken out so that the others have fewer than k - x pairs; `hub` is the rule for whom
    // to take out. Then no matching within s has k pairs (the Tutte-Berge bound).
    fn falls_short<F: Fn(&Graph, u16) -> Option<usize>>(&self, s: u16, k: usize, hub: F) -> bool
        requires few { k ≤ 8 }
        requires callable { F.IsAlwaysCallable hub }
        ensures { result ≡ true → NoneOfSize (Within self.now.rows s) k }
    {
        let mut left = s;
        for x in 0..k {
            if self.halves(left) + x < k {
                return true;
            }
            match hub(self, left) {
                Some(y) => left = remove(left, y),
                None => return false,
            }
        }
        false
    }

    // The same by two rules. Every rule is right; these two find most of the sets that have too few pairs.
    fn is_hopeless(&self, s: u16, k: usize) -> bool
        requires { k ≤ 8 }
        ensures { result ≡ true → NoneOfSize (Within self.now.rows s) k }
    {
        self.falls_short(s, k, Graph::with_most) || self.falls_short(s, k, Graph::partner_of_fewest)
    }

    // The first matching of k pairs within the remaining controllers s, if there is one.
    fn first_of_size(&self, s: u16, k: usize) -> Option<Matching>
        requires { k ≤ 8 }
        ensures { Searched self.now.rows s k result }
    {
        if k == 0 {
            return Some(Matching::empty());
        }
        let v = lowest(s)?;
        if self.is_hopeless(s, k) {
            return None;
        }
        let rest = remove(s, v);
        let partners = intersection(self.rows[v], rest);
        for w in 0..16 {
            if member(partners, w) {
                if let Some(m) = self.first_of_size(remove(rest, w), k - 1) {
                    return Some(m.with(v, w));
                }
            }
        }
        self.first_of_size(rest, k)
    }

    // The first largest matching within s.
    fn first_largest(&self, s: u16) -> Matching
        ensures { Largest self.now.rows s result }
    {
        for k in (1..9).rev() {
            if let Some(m) = self.first_of_size(s, k) {
                return m;
            }
        }
        Matching::empty()
    }
}

// Of the largest matchings of the missing pairs below n, of 16 at most, the first in dictionary order. No two lists of pairs are that
// (`one_matching`), so the relation determines every byte of the answer (`one_answer`).
// Shut out: must-fail/first_partner_only; must-fail/not_largest; must-fail/cannot_be_extended; must-fail/last_in_order.
pub fn largest(bits: [u8; 15], n: usize) -> Matching
    ensures { IsFirstLargest (min n 16) (adjacent bits) result }
{
    let graph = Graph {
        rows: complement(bits, n),
    };
    graph.first_largest(below(n))
}
