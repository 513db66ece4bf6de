// Runs every product, inverse, power and exponent of `gf256` and compares it with a second way of computing it: products bit by bit,
// powers by doubling, inverses and exponents by search. A line for each kind: how many cases, and in how many the two agree.
#![tactic(auto)]

use std::io;

// `a` times 02: shifted left, and reduced by 11d where a bit leaves the byte.
fn double(a: u8) -> u8 {
    if a < 128 {
        a * 2
    } else {
        ((a - 128) * 2) ^ 0x1d
    }
}

// The product: `a` shifted by k and reduced, for each bit k that is set in `b`; all these added.
fn times(a: u8, b: u8) -> u8 {
    let mut sum = 0;
    let mut shifted = a;
    for k in 0..8u8 {
        if b >> k & 1 == 1 {
            sum ^= shifted;
        }
        shifted = double(shifted);
    }
    sum
}

// 01 doubled `e` times.
fn doubled(e: u8) -> u8 {
    (0..e).fold(1, |p, _| double(p))
}

// The first element whose product with `a` is 01, or 00.
fn inverse(a: u8) -> u8 {
    (1..=255).find(|b| times(a, *b) == 1).unwrap_or(0)
}

// The first exponent below 255 whose power of 02 is `a`, or 0.
fn exponent(a: u8) -> u8 {
    let mut p = 1;
    for e in 0..255 {
        if p == a {
            return e;
        }
        p = double(p);
    }
    0
}

// A line: how many cases there are, of the first 65536 pairs of bytes, and in how many of them the two ways agree.
fn report<F: Fn(u8, u8) -> bool>(
    rt: &impl Print,
    name: &[u8],
    cases: usize,
    agree: F,
) -> io::Result<()>
    requires { (f : F) (x y : _) → F.pre f x y }
{
    let agreeing = (0..cases)
        .filter(|i| agree((*i % 256) as u8, (*i / 256 % 256) as u8))
        .count();
    cases::numbers(rt, name, &[cases])?;
    cases::numbers(rt, b" agree", &[agreeing])?;
    cases::newline(rt)
}

fn main(rt: HostRuntime) -> io::Result<()> {
    report(
        &rt,
        b"products",
        65536,
        |a, b| gf256::mul(a, b) == times(a, b),
    )?;
    report(&rt, b"inverses", 256, |a, _| gf256::inv(a) == inverse(a))?;
    report(&rt, b"powers", 256, |e, _| gf256::power(e) == doubled(e))?;
    report(&rt, b"logs", 256, |a, _| gf256::log(a) == exponent(a))
}
