// Interpolation of a polynomial through values some of which are wrong (Welch and Berlekamp, by the pairs of Kötter), over a list of points
// and a list of values. It knows of the field only its contracts and laws.
// Points and values are two slices, as `candidate_into` of specs/ has them: the caller has the points for all stripes and the values for one.
#![tactic(auto)]

ghost use Rattle.std.specs.Prelude.{◌≡◌, ◌+◌, ◌-◌, ◌≤◌, ◌<◌, length};
ghost use Rattle.polynomial.specs.Polynomial.{horner, plus, scale, times_root};
ghost use Rattle.interpolation.specs.Interpolation.{ratio, wrong_by, combine, with_root, advance, next, run, reduced, series, candidate, candidate_into};
ghost use Rattle.interpolation.specs.Steps.{ratio_of, ratios_of, SameWidth, Alike, Next, Zeros};

use gf256::{add, inv, mul};

// A pair Q, E of polynomials and a bound of its weighted degree.
#[derive(Drop)]
struct Pair<'a> {
    q: &'a mut [u8],
    e: &'a mut [u8],
    weight: usize,
}

// The most coefficients that decoding needs: n + t + 1 for n 16 and t 5.
const MOST: usize = 22;

// The value of the polynomial p at x, by Horner's rule.
fn evaluate(p: &[u8], x: u8) -> u8
    ensures { result ≡ horner p.now x }
{
    p.iter().rev().fold(0, |r, c| add(*c, mul(x, r)))
}

// X + x times p, in the place of p.
fn times_root(p: &mut [u8], x: u8)
    ensures { p.new ≡ times_root x p.old }
{
    let mut before = 0;
    for c in p.iter_mut() {
        let here = *c;
        *c = add(before, mul(x, here));
        before = here;
    }
}

// a p + b q, in the place of p.
fn combine(p: &mut [u8], a: u8, q: &[u8], b: u8)
    requires { length p.old ≡ length q.now }
    ensures { p.new ≡ plus (scale a p.old) (scale b q.now) }
{
    gf256::scale(p, a);
    gf256::add_multiple(p, b, q);
}

impl Pair<'_> {
    // q(x) - y e(x): what the pair is wrong by at x, where y was received.
    fn wrong_by(&self, x: u8, y: u8) -> u8
        ensures { result ≡ wrong_by y (ratio_of self.now) x }
    {
        add(evaluate(self.q, x), mul(y, evaluate(self.e, x)))
    }

    // X + x times the pair.
    fn add_root(&mut self, x: u8)
        requires { self.old.weight < 64 }
        ensures ratio { ratio_of self.new ≡ with_root x (ratio_of self.old) }
        ensures weight { self.new.weight ≡ self.old.weight + 1 }
        ensures width { SameWidth self.old self.new }
    {
        times_root(self.q, x);
        times_root(self.e, x);
        self.weight += 1;
    }

    // a times the pair and b times the other, in the place of the pair.
    fn combine(&mut self, a: u8, other: &Pair, b: u8)
        requires { SameWidth self.old other.now }
        ensures ratio { ratio_of self.new ≡ combine a (ratio_of self.old) b (ratio_of other.now) }
        ensures weight { self.new.weight ≡ self.old.weight }
        ensures width { SameWidth self.old self.new }
    {
        combine(self.q, a, other.q, b);
        combine(self.e, a, other.e, b);
    }

    // q + c e without its constant coefficient, over X, in the place of q.
    fn reduce(&mut self, c: u8)
        requires { (length self.old.q.now ≡ length self.old.e.now) × (0 < length self.old.q.now) }
        ensures { ratio_of self.new ≡ ratio (reduced c self.old.q.now self.old.e.now) self.old.e.now }
    {
        // By index: `gf256::add_multiple` on self.q with self.e was tried, and its call gets no proof: it lends one field of a struct behind a reference and
        // reads another.
        let last = self.q.len() - 1;
        for i in 0..last {
            self.q[i] = add(self.q[i + 1], mul(c, self.e[i + 1]));
        }
        self.q[last] = 0;
    }

    // The first coefficients of q / e as a power series, into m.
    fn divide(&mut self, m: &mut [u8])
        requires { (length self.old.q.now ≡ length self.old.e.now) × (0 < length self.old.q.now) }
        ensures { m.new ≡ series (length m.old) self.old.q.now self.old.e.now }
    {
        let inverse = inv(self.e[0]);
        for x in m.iter_mut() {
            let c = mul(self.q[0], inverse);
            *x = c;
            self.reduce(c);
        }
    }
}

// A point more, where the first pair has the smaller bound: if it is right there it stays, and the second gets the root x; else the first
// gets it, and the second is made right there by the first.
fn advance(first: &mut Pair, second: &mut Pair, x: u8, y: u8)
    requires { Alike first.old second.old × (first.old.weight + second.old.weight < 64) }
    ensures { Next (advance x y) first.old second.old first.new second.new }
{
    let a = first.wrong_by(x, y);
    if a == 0 {
        second.add_root(x);
        return;
    }
    let b = second.wrong_by(x, y);
    second.combine(a, first, b);
    first.add_root(x);
}

// A point more, whichever pair has the smaller bound.
fn next(first: &mut Pair, second: &mut Pair, x: u8, y: u8)
    requires { Alike first.old second.old × (first.old.weight + second.old.weight < 64) }
    ensures { Next (next x y) first.old second.old first.new second.new }
{
    if first.weight <= second.weight {
        advance(first, second, x, y);
    } else {
        advance(second, first, x, y);
    }
}

// All the points xs, where the values ys were received: the two pairs, from zeros.
fn interpolate(xs: &[u8], ys: &[u8], first: &mut Pair, second: &mut Pair)
    requires { Zeros xs.now ys.now first.old second.old }
    ensures state { ratios_of first.new second.new ≡ run second.old.weight xs.now ys.now (length xs.now) }
    ensures alike { Alike first.new second.new }
    ensures some { 0 < length first.new.q.now }
{
    first.q[0] = 1;
    second.e[0] = 1;
    for (i, x) in xs.iter().enumerate() {
        next(first, second, *x, ys[i]);
    }
}

// The candidate for the values ys received at the points xs, into m: what the pair of the smaller bound gives.
fn recover(xs: &[u8], ys: &[u8], t: usize, m: &mut [u8])
    requires { (length ys.now ≡ length xs.now) × (length xs.now + t + 1 ≤ 22) × (length m.old ≡ t + 1) }
    ensures { m.new ≡ candidate t xs.now ys.now }
{
    let (mut qa, mut ea, mut qb, mut eb) = ([0; MOST], [0; MOST], [0; MOST], [0; MOST]);
    let w = xs.len() + t + 1;
    let mut first = Pair {
        q: &mut qa[..w],
        e: &mut ea[..w],
        weight: 0,
    };
    let mut second = Pair {
        q: &mut qb[..w],
        e: &mut eb[..w],
        weight: t,
    };
    interpolate(xs, ys, &mut first, &mut second);
    if second.weight < first.weight {
        second.divide(m);
    } else {
        first.divide(m);
    }
}

// The only polynomial of m.len() coefficients that can agree with the values ys received at the points xs in enough places, into m. Nothing
// is written where ys has not a value for each point, m is empty, or there are more than MOST points and coefficients together.
// Shut out: must-fail/larger_pair; must-fail/discrepancies_swapped; must-fail/discrepancies_swapped_in_both; must-fail/coefficients_reversed.
pub fn candidate(xs: &[u8], ys: &[u8], m: &mut [u8])
    ensures { m.new ≡ candidate_into xs.now ys.now m.old }
{
    if ys.len() == xs.len() && !m.is_empty() && m.len() <= MOST && xs.len() <= MOST - m.len() {
        recover(xs, ys, m.len() - 1, m);
    }
}
