// What the programs that run cases and print them have in common: random numbers, run numbers, digests, bytes and lengths of lent slices, and printing to
// standard output. No contract can say what is printed.
#![tactic(auto, unfolding(crate::specs::Random::next_random, crate::specs::Random::mixed, crate::specs::Random::some_run, crate::specs::Random::other_run))]

ghost use Rattle.std.specs.Prelude.{◌≡◌, ℕ, ◌/◌, ◌%◌, ◌≤◌, ◌&&◌, ltb, length, map, take, if◌then◌else◌, ◌==◌, nat_lt};
ghost use Rattle.cases.specs.Random.{next_random, mixed, seeded, drawn, digested, some_run, other_run};

use std::fmt::Display;
use std::io;

// The run numbers of cases.
const RUNS: [u16; 4] = [0, 1, 256, 65535];

// The generator: x times 1664525 plus 1013904223, modulo 2 to the 32.
// Shut out: another factor; another modulus.
pub fn next(x: u64) -> u64
    ensures { result ≡ next_random x }
{
    (x % 4294967296 * 1664525 + 1013904223) % 4294967296
}

// The generator applied to the sum.
// Shut out: x twice; y not added.
pub fn mix(x: u64, y: u64) -> u64
    ensures { result ≡ mixed x y }
{
    next(x.wrapping_add(y))
}

// A seed from four numbers.
// Shut out: c and d the other way round; c twice.
pub fn seed(a: u64, b: usize, c: usize, d: usize) -> u64
    ensures { result ≡ seeded a b c d }
{
    mix(mix(mix(a, b as u64), c as u64), d as u64)
}

// 16 bits for a seed, a purpose and two numbers.
// Shut out: another divisor; c and d the other way round.
pub fn draw(a: u64, b: usize, c: usize, d: usize) -> usize
    ensures { result ≡ drawn a b c d }
{
    (seed(a, b, c, d) / 65536) as usize
}

// The low eight bits.
// Shut out: the low seven bits; the bits above them.
pub fn byte(x: usize) -> u8
    ensures { result ≡ x % 256 }
{
    // `as` is refused where it loses bits.
    (x % 256) as u8
}

// The low 16 bits.
// Shut out: the low 15 bits; the bits above them.
pub fn word(x: usize) -> u16
    ensures { result ≡ x % 65536 }
{
    // `as` is refused where it loses bits.
    (x % 65536) as u16
}

// One of four run numbers, by the remainder of x: the least, the greatest, and the two whose only bit is the lowest of a byte.
// Shut out: by the remainder by 3; 255 for 256.
pub fn some_run(x: usize) -> u16
    ensures { result ≡ some_run x }
{
    RUNS[x % 4]
}

// The number of another run, which differs in one byte only: in the low one for an even c, else in the high one.
// Shut out: the low byte for an odd c too; the same number.
pub fn other_run(run: u16, c: usize) -> u16
    ensures { result ≡ other_run run c }
{
    if c % 2 == 0 { run ^ 1 } else { run ^ 256 }
}

// The types of what is digested. Not `u64: From<T>`: std's law of it, `from_gives`, is a relation, and the clause of `digest` maps a function over the
// elements.
pub trait Unsigned: Copy {
    ghost value: { Self → ℕ };

    // The number that is mixed in; for u8 and u16 the element itself.
    // Shut out: 0, whatever the element is; the element and 1 more.
    fn value(self) -> u64
        ensures { result ≡ value self };
}

impl Unsigned for u8 {
    ghost value = { λ x. x };

    fn value(self) -> u64 {
        u64::from(self)
    }
}

impl Unsigned for u16 {
    ghost value = { λ x. x };

    fn value(self) -> u64 {
        u64::from(self)
    }
}

// A digest of d and the elements of a slice.
// Shut out: must-fail/last_element_alone; that without the first.
pub fn digest<T: Unsigned>(d: u64, s: &[T]) -> u64
    ensures { result ≡ digested d (map T.value s.now) }
{
    let mut r = d;
    for x in s {
        r = mix(r, x.value());
    }
    r
}

// Whether index i is one of t: every third, from index 1 on.
// Shut out: from index 0 on; the indices below t.
pub fn is_third(t: usize, i: usize) -> bool
    ensures { result ≡ (i % 3 == 1 && nat_lt (i / 3) t) }
{
    i % 3 == 1 && i / 3 < t
}

// The length x for a part of s; 0 where s is shorter. Not an Option: the callers take the part at once, and where a case asks for more than there is,
// they go on with the empty part.
// Shut out: 0 where it fits; an exact fit refused.
pub fn fitting(x: usize, s: &[u8]) -> usize
    ensures prefix_len { (result ≤ length s.now) × (result ≡ length (take result s.now)) }
    ensures value { result ≡ (if ltb (length s.now) x then 0 else x) }
{
    if s.len() < x { 0 } else { x }
}

// Prints a text.
pub fn text(rt: &impl Print, s: &[u8]) -> io::Result<()>
    ensures { Unit {0} }
{
    rt.write_all(s)
}

pub fn newline(rt: &impl Print) -> io::Result<()>
    ensures { Unit {0} }
{
    text(rt, b"\n")
}

// A number in decimal.
pub fn decimal(rt: &impl Print, x: usize) -> io::Result<()>
    ensures { Unit {0} }
{
    print!(rt; "{x}")
}

// A text, then a space and a number for each.
pub fn numbers<T: Display>(rt: &impl Print, name: &[u8], xs: &[T]) -> io::Result<()>
    ensures { Unit {0} }
{
    text(rt, name)?;
    for x in xs {
        print!(rt; " {x}")?;
    }
    Ok(())
}

// A line: the same for bytes.
pub fn byte_line(rt: &impl Print, name: &[u8], xs: &[u8]) -> io::Result<()>
    ensures { Unit {0} }
{
    numbers(rt, name, xs)?;
    newline(rt)
}

// A space, and two hexadecimal digits for each byte; a dash for no byte.
pub fn hex(rt: &impl Print, s: &[u8]) -> io::Result<()>
    ensures { Unit {0} }
{
    text(rt, b" ")?;
    if s.is_empty() {
        return text(rt, b"-");
    }
    for x in s {
        print!(rt; "{x:02x}")?;
    }
    Ok(())
}

// Ends a line: a space, and a digest in eight hexadecimal digits.
pub fn end_digest(rt: &impl Print, d: u64) -> io::Result<()>
    ensures { Unit {0} }
{
    println!(rt; " {d:08x}")
}
