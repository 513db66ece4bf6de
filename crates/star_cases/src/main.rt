// Runs the star on 28 kinds of graphs for each n from 4 to 16 and each t that n allows, and on settings that are refused or just taken. A line
// for each: n, t and the kind, then the number of the refusal and the sets C, D, F and E. Then the same of 120 bits at random, at nine
// chances, those of numbers past n too, and the missing pairs of one kind of graph for each n, 15 bytes. The expected output comes from
// the independent reference, which searches exhaustively:
//     cargo run --release --bin star_vectors > crates/star_cases/stdout
#![tactic(auto)]

ghost use Rattle.std.specs.Prelude.{◌≤◌};

use settings::Refusal;
use star::Sets;
use std::{array, io};

// 16 bits for a purpose, a graph and two controllers.
fn draw(purpose: usize, k: usize, i: usize, j: usize) -> usize {
    cases::draw(k as u64, purpose, i, j)
}

// The largest odd number that is at most n, or 0.
fn odd(n: usize) -> usize {
    n.saturating_sub(1) + n % 2
}

// An odd cycle through the first m.
fn on_cycle(m: usize, i: usize, j: usize) -> bool {
    if i == 0 {
        return j < m && (j == 1 || j == m - 1);
    }
    j < m && i == j.saturating_sub(1)
}

// Two odd cliques.
fn in_cliques(n: usize, i: usize, j: usize) -> bool {
    let a = odd(n / 2);
    j < a || a <= i && j.saturating_sub(a) < odd(n.saturating_sub(a))
}

// A path of four whose middle pair comes first.
fn on_path(i: usize, j: usize) -> bool {
    i / 4 == j / 4 && (i % 4 == 0 && j % 4 != 3 || i % 4 == 1 && j % 4 == 3)
}

// A graph of kind k, of n controllers of which at most t are faulty. Kinds are no enum: a kind is the number that is printed, and kinds 9 to 15 and those
// from 28 on differ in a chance alone.
#[derive(Clone, Copy)]
struct Graph {
    k: usize,
    n: usize,
    t: usize,
}

impl Graph {
    // Whether i and j, i the smaller, are to be no neighbours. A kind is the number that is printed; 9 to 15 and 28 on differ in a chance alone.
    fn is_apart(self, i: usize, j: usize) -> bool {
        let Graph { k, n, t } = self;
        match k {
            0 => false,
            1 => true,
            2 => on_cycle(odd(n), i, j),
            3 => in_cliques(n, i, j),
            4 => i < t && t <= j,
            5 => i < n.saturating_sub(t) && n.saturating_sub(t) <= j,
            6 => i / 4 < t / 2 && on_path(i, j),
            7 => on_cycle(5, i, j),
            8 => j < 6 && i / 3 == j / 3,
            9..=15 => draw(0, k, i, j) % 8 < k.saturating_sub(8),
            16..=19 => n.saturating_sub(t) <= j && draw(0, k, i, j) % 2 == 0,
            20..=23 => {
                (cases::is_third(t, i) || cases::is_third(t, j)) && draw(0, k, i, j) % 2 == 0
            }
            _ => draw(0, k, i, j) % 16 == 0,
        }
    }

    // Whether i marks j. One's own mark and all past n are at random. Of a pair that are no neighbours neither marks the other, or the smaller
    // does, or the larger. From 28 on, each bit is set with a chance of k - 28 in 32.
    fn marks(self, i: usize, j: usize) -> bool {
        let Graph { k, n, .. } = self;
        if 28 <= k {
            return draw(300, n, i, j) % 32 < k - 28;
        }
        if n <= i || n <= j || i == j {
            return draw(200, k, i, j) % 2 == 0;
        }
        let (a, b, side) = if i < j { (i, j, 1) } else { (j, i, 2) };
        !self.is_apart(a, b) || draw(100, k, a, b) % 3 == side
    }

    // 16 bits: whether i marks each.
    fn row(self, i: usize) -> u16 {
        bitset::select(16, |j| self.marks(i, j))
    }

    fn rows(self) -> [u16; 16] {
        array::from_fn(|i| self.row(i))
    }

    // 120 bits, from 28 on: the low eight of each row.
    fn bits(self) -> [u8; 15] {
        array::from_fn(|i| self.row(i).to_le_bytes()[0])
    }

    // The star of the graph under the number k.
    fn print_star(self, rt: &impl Print, k: usize, star: Result<Sets, Refusal>) -> io::Result<()> {
        let answer = match star {
            Ok(s) => [0, s.c, s.d, s.f, s.e],
            Err(r) => [u16::from(u8::from(r)), 0, 0, 0, 0],
        };
        cases::decimal(rt, self.n)?;
        cases::numbers(rt, b"", &[self.t, k])?;
        cases::numbers(rt, b":", &answer)?;
        cases::newline(rt)
    }

    // The star of the graph; from 28 on, of bits.
    fn play(self, rt: &impl Print) -> io::Result<()> {
        let Graph { k, n, t } = self;
        if k < 28 {
            return self.print_star(rt, k, star::find(&self.rows(), n, t));
        }
        self.print_star(rt, k - 28, star::of_bits(self.bits(), n, t))
    }

    // The missing pairs of the graph.
    fn print_bits(self, rt: &impl Print) -> io::Result<()> {
        let pairs = graph::bits_of(&self.rows(), self.n);
        cases::decimal(rt, self.n)?;
        cases::byte_line(rt, b":", &pairs)
    }
}

// The 28 graphs of n controllers of which at most t are faulty, and the nine chances.
fn kinds(rt: &impl Print, n: usize, t: usize) -> io::Result<()> {
    for k in 0..37 {
        Graph { k, n, t }.play(rt)?;
    }
    Ok(())
}

// If n allows t. The missing pairs are printed once for n.
fn play_size(rt: &impl Print, n: usize, t: usize) -> io::Result<()>
    requires { t ≤ 5 }
{
    if 3 * t < n {
        kinds(rt, n, t)?;
    }
    if t == 5 {
        Graph { k: 12, n, t: 1 }.print_bits(rt)?;
    }
    Ok(())
}

fn sizes(rt: &impl Print) -> io::Result<()> {
    for n in 4..17 {
        for t in 1..6 {
            play_size(rt, n, t)?;
        }
    }
    Ok(())
}

// Settings that are refused or just taken, each with its kind before it.
const EDGES: [(usize, usize, usize); 13] = [
    (0, 3, 1),
    (0, 3, 0),
    (0, 17, 5),
    (0, 0, 0),
    (0, 4, 0),
    (0, 4, 2),
    (0, 7, 2),
    (0, 16, 6),
    (0, 16, 5),
    (28, 3, 0),
    (28, 17, 5),
    (28, 4, 2),
    (28, 16, 6),
];

fn edges(rt: &impl Print) -> io::Result<()> {
    for (k, n, t) in EDGES {
        Graph { k, n, t }.play(rt)?;
    }
    Graph { k: 1, n: 17, t: 1 }.print_bits(rt)
}

fn main(rt: HostRuntime) -> io::Result<()> {
    sizes(&rt)?;
    edges(&rt)
}
