// The field of 256 elements: bytes, with exclusive or as the sum and the product of polynomials over two elements reduced by 11d
// (document 01, 'Field and code'). Every function has an answer for every byte. Crates above know the contracts and the laws of
// proofs/Laws.antt; each table is read by one function here and seen by nobody else. Loops over many elements use no table.
#![tactic(auto)]

ghost use Rattle.std.specs.Prelude.{◌≡◌, ℕ, ◌/◌, ◌<◌, length, get_or};
ghost use Rattle.lists.specs.Fill.{tabulate, filled};
ghost use Rattle.gf256.specs.Field.{gadd, gmul, gpow, ginv, glog};

// The 255 powers of 02: entry e is 02 to the power e.
const POWERS: [u8; 255] = *b"\
    \x01\x02\x04\x08\x10\x20\x40\x80\x1d\x3a\x74\xe8\xcd\x87\x13\x26\
    \x4c\x98\x2d\x5a\xb4\x75\xea\xc9\x8f\x03\x06\x0c\x18\x30\x60\xc0\
    \x9d\x27\x4e\x9c\x25\x4a\x94\x35\x6a\xd4\xb5\x77\xee\xc1\x9f\x23\
    \x46\x8c\x05\x0a\x14\x28\x50\xa0\x5d\xba\x69\xd2\xb9\x6f\xde\xa1\
    \x5f\xbe\x61\xc2\x99\x2f\x5e\xbc\x65\xca\x89\x0f\x1e\x3c\x78\xf0\
    \xfd\xe7\xd3\xbb\x6b\xd6\xb1\x7f\xfe\xe1\xdf\xa3\x5b\xb6\x71\xe2\
    \xd9\xaf\x43\x86\x11\x22\x44\x88\x0d\x1a\x34\x68\xd0\xbd\x67\xce\
    \x81\x1f\x3e\x7c\xf8\xed\xc7\x93\x3b\x76\xec\xc5\x97\x33\x66\xcc\
    \x85\x17\x2e\x5c\xb8\x6d\xda\xa9\x4f\x9e\x21\x42\x84\x15\x2a\x54\
    \xa8\x4d\x9a\x29\x52\xa4\x55\xaa\x49\x92\x39\x72\xe4\xd5\xb7\x73\
    \xe6\xd1\xbf\x63\xc6\x91\x3f\x7e\xfc\xe5\xd7\xb3\x7b\xf6\xf1\xff\
    \xe3\xdb\xab\x4b\x96\x31\x62\xc4\x95\x37\x6e\xdc\xa5\x57\xae\x41\
    \x82\x19\x32\x64\xc8\x8d\x07\x0e\x1c\x38\x70\xe0\xdd\xa7\x53\xa6\
    \x51\xa2\x59\xb2\x79\xf2\xf9\xef\xc3\x9b\x2b\x56\xac\x45\x8a\x09\
    \x12\x24\x48\x90\x3d\x7a\xf4\xf5\xf7\xf3\xfb\xeb\xcb\x8b\x0b\x16\
    \x2c\x58\xb0\x7d\xfa\xe9\xcf\x83\x1b\x36\x6c\xd8\xad\x47\x8e";

// Back from an element to its exponent: entry a is the exponent of a. 00 is no power, and its entry is 00.
const EXPONENTS: [u8; 256] = *b"\
    \x00\x00\x01\x19\x02\x32\x1a\xc6\x03\xdf\x33\xee\x1b\x68\xc7\x4b\
    \x04\x64\xe0\x0e\x34\x8d\xef\x81\x1c\xc1\x69\xf8\xc8\x08\x4c\x71\
    \x05\x8a\x65\x2f\xe1\x24\x0f\x21\x35\x93\x8e\xda\xf0\x12\x82\x45\
    \x1d\xb5\xc2\x7d\x6a\x27\xf9\xb9\xc9\x9a\x09\x78\x4d\xe4\x72\xa6\
    \x06\xbf\x8b\x62\x66\xdd\x30\xfd\xe2\x98\x25\xb3\x10\x91\x22\x88\
    \x36\xd0\x94\xce\x8f\x96\xdb\xbd\xf1\xd2\x13\x5c\x83\x38\x46\x40\
    \x1e\x42\xb6\xa3\xc3\x48\x7e\x6e\x6b\x3a\x28\x54\xfa\x85\xba\x3d\
    \xca\x5e\x9b\x9f\x0a\x15\x79\x2b\x4e\xd4\xe5\xac\x73\xf3\xa7\x57\
    \x07\x70\xc0\xf7\x8c\x80\x63\x0d\x67\x4a\xde\xed\x31\xc5\xfe\x18\
    \xe3\xa5\x99\x77\x26\xb8\xb4\x7c\x11\x44\x92\xd9\x23\x20\x89\x2e\
    \x37\x3f\xd1\x5b\x95\xbc\xcf\xcd\x90\x87\x97\xb2\xdc\xfc\xbe\x61\
    \xf2\x56\xd3\xab\x14\x2a\x5d\x9e\x84\x3c\x39\x53\x47\x6d\x41\xa2\
    \x1f\x2d\x43\xd8\xb7\x7b\xa4\x76\xc4\x17\x49\xec\x7f\x0c\x6f\xf6\
    \x6c\xa1\x3b\x52\x29\x9d\x55\xaa\xfb\x60\x86\xb1\xbb\xcc\x3e\x5a\
    \xcb\x59\x5f\xb0\x9c\xa9\xa0\x51\x0b\xf5\x16\xeb\x7a\x75\x2c\xd7\
    \x4f\xae\xd5\xe9\xe6\xe7\xad\xe8\x74\xd6\xf4\xea\xa8\x50\x58\xaf";

// The sum, which is also the difference.
// Shut out: a | b; a ^ a.
#[tactic(auto, unfolding(crate::specs::Field::gadd))]
pub fn add(a: u8, b: u8) -> u8
    ensures { result ≡ gadd a b }
{
    a ^ b
}

// 02 to the power `e`; 255 gives 01, as 0 does.
// Shut out: 02 at 255; must-fail/wrong_power.
pub fn power(e: u8) -> u8
    ensures { result ≡ gpow 2 e }
{
    if e == 255 { 1 } else { POWERS[e as usize] }
}

// The exponent of `a`: `power` of it is `a`. That of 00 is 00, and so is that of 01.
// Shut out: 255 for 00; 255 for 01; must-fail/wrong_exponent.
pub fn log(a: u8) -> u8
    ensures { result ≡ glog a }
{
    EXPONENTS[a as usize]
}

// The product: exponents add up, modulo 255; the sum of two is below 510, so 255 is subtracted at most once (document 02, U5).
// Shut out: 01 where a is 00; must-fail/subtracts_254; must-fail/exponent_added_twice; must-fail/other_polynomial.
pub fn mul(a: u8, b: u8) -> u8
    ensures { result ≡ gmul a b }
{
    if a == 0 || b == 0 {
        return 0;
    }
    let e = log(a) as u16 + log(b) as u16;
    if e < 255 {
        power(e as u8)
    } else {
        power((e - 255) as u8)
    }
}

// The inverse; that of 00 is 00.
// Shut out: 01 for 00; 00 for 01.
pub fn inv(a: u8) -> u8
    ensures { result ≡ ginv a }
{
    if a == 0 { 0 } else { power(255 - log(a)) }
}

// 02 times a: the bits move up by one, and 1d is added for the one that falls out.
fn double(a: u8) -> u8
    ensures { result ≡ gmul 2 a }
{
    a << 1 ^ (a >> 7) * 0x1d
}

// a times b, from `half`, which is a / 2 times b.
fn bitwise_step(half: u8, a: u8, b: u8) -> u8
    requires { half ≡ gmul (a / 2) b }
    ensures { result ≡ gmul a b }
{
    double(half) ^ (a & 1) * b
}

// The product, a bit of a after the other: with no table and no test, so that loops over it work on sixteen bytes at a time.
fn bitwise_product(a: u8, b: u8) -> u8
    ensures { result ≡ gmul a b }
{
    let mut p = 0;
    for k in (0..8u8).rev() {
        p = bitwise_step(p, a >> k, b);
    }
    p
}

// Multiplies every element of p by a.
// Shut out: p as it was; the multiple of the first element everywhere.
pub fn scale(p: &mut [u8], a: u8)
    ensures { p.new ≡ tabulate (λ i. gmul a (get_or p.old i 0)) (length p.old) }
{
    for x in p.iter_mut() {
        *x = bitwise_product(a, *x);
    }
}

// Makes each element of p what f says of it and of that of q, as far as both reach.
fn update<F: Fn(u8, u8) -> u8>(p: &mut [u8], q: &[u8], f: F)
    requires { F.IsAlwaysCallable f }
    ensures { (g : ℕ → ℕ → ℕ) → ((x y r : ℕ) → x < 256 → y < 256 → F.post f x y r → r ≡ g x y) → p.new ≡ filled (λ i. g (get_or p.old i 0) (get_or q.now i 0)) (length q.now) p.old }
{
    for i in 0..p.len().min(q.len()) {
        p[i] = f(p[i], q[i]);
    }
}

// Adds q to p, element by element, as far as both reach.
fn add_all(p: &mut [u8], q: &[u8])
    ensures { p.new ≡ filled (λ i. gadd (get_or p.old i 0) (get_or q.now i 0)) (length q.now) p.old }
{
    update(p, q, add);
}

// Adds b times q to p, element by element, as far as both reach.
// Shut out: q itself added; all added to the first element of p.
pub fn add_multiple(p: &mut [u8], b: u8, q: &[u8])
    ensures { p.new ≡ filled (λ i. gadd (get_or p.old i 0) (gmul b (get_or q.now i 0))) (length q.now) p.old }
{
    update(p, q, |x, y| add(x, bitwise_product(b, y)));
}

// A step of Horner's rule for one polynomial at many points: each element of p times its point of xs, and the coefficient c added, as far as both
// reach.
// Shut out: c not added; the first point everywhere.
pub fn horner_at_points(p: &mut [u8], xs: &[u8], c: u8)
    ensures { p.new ≡ filled (λ i. gadd c (gmul (get_or xs.now i 0) (get_or p.old i 0))) (length xs.now) p.old }
{
    update(p, xs, |y, x| add(c, bitwise_product(x, y)));
}

// A step of Horner's rule for many polynomials at one point: each element of p times x, and its coefficient of cs added; one that cs has not is 00.
// Two loops: the compiler makes sixteen bytes at a time of each, and not of both in one.
// Shut out: p not multiplied; p taken for 00.
pub fn horner_at_point(p: &mut [u8], x: u8, cs: &[u8])
    ensures { p.new ≡ tabulate (λ i. gadd (get_or cs.now i 0) (gmul x (get_or p.old i 0))) (length p.old) }
{
    scale(p, x);
    add_all(p, cs);
}
