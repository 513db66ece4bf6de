// Lines, decimal numbers without leading zero and lower-case hexadecimal bytes (document 01, 'The house program'): reading and writing.
// Every public function is total: no number or length makes a sum or a product overflow.
#![tactic(auto)]

pub mod lines;
pub mod writer;

ghost use Rattle.std.specs.Prelude.{◌≡◌, ◌==◌, ◌++◌, ◌+◌, ◌*◌, length, take, drop, position};
ghost use Rattle.text.specs.Read.{every, is_digit, is_hex, hex_of, number_read, is_bytes, bytes_of};
ghost use Rattle.text.specs.Steps.{headed, capped};

// The place of the first byte c.
// Shut out: the first byte passed over; the first byte that is another.
pub fn find(s: &[u8], c: u8) -> Option<usize>
    ensures { result ≡ position (λ x. x == c) s.now }
{
    s.iter().position(|x| *x == c)
}

// The decimal number from low to high that a field says.
// Shut out: the number high refused; must-fail/leading_zero_accepted.
#[tactic(auto, using(crate::proofs::Numbers::number_cases))]
pub fn read_number(f: &[u8], low: u32, high: u32) -> Option<u32>
    ensures { result ≡ number_read low high f.now }
{
    if !has_head(f) {
        return None;
    }
    let x = value(f, high)?;
    if x < low {
        return None;
    }
    Some(x)
}

// Whether a field has a first byte that a number can start with.
#[tactic(auto, unfolding(crate::specs::Steps::headed))]
fn has_head(f: &[u8]) -> bool
    ensures { result ≡ headed f.now }
{
    match f {
        [] => false,
        [b'0', rest @ ..] => rest.is_empty(),
        _ => true,
    }
}

// The number that digits say; none where it is larger than high, or where a byte is no digit.
#[tactic(auto, using(crate::proofs::Numbers::value_turns))]
fn value(f: &[u8], high: u32) -> Option<u32>
    ensures { result ≡ capped high 0 f.now }
{
    let mut x: u64 = 0;
    for b in f {
        if !is_digit(*b) {
            return None;
        }
        x = x * 10 + u64::from(*b - b'0');
        if x > u64::from(high) {
            return None;
        }
    }
    Some(x as u32)
}

// Whether a byte is a decimal digit.
#[tactic(auto, unfolding(crate::specs::Read::is_digit))]
fn is_digit(b: u8) -> bool
    ensures { result ≡ is_digit b }
{
    b.is_ascii_digit()
}

// Whether a field is exactly `len` bytes of two lower-case hexadecimal digits each.
// Shut out: a digit left over; upper case.
#[tactic(auto, unfolding(crate::specs::Read::is_bytes))]
pub fn is_bytes(f: &[u8], len: usize) -> bool
    ensures { result ≡ is_bytes len f.now }
{
    f.len() % 2 == 0 && f.len() / 2 == len && all_hex(f)
}

// Whether every byte is a lower-case hexadecimal digit.
fn all_hex(f: &[u8]) -> bool
    ensures { result ≡ every is_hex f.now }
{
    f.iter().all(|b| is_hex(*b))
}

// Whether a byte is a lower-case hexadecimal digit.
#[tactic(auto, unfolding(crate::specs::Read::is_digit, crate::specs::Read::is_hex))]
fn is_hex(b: u8) -> bool
    ensures { result ≡ is_hex b }
{
    matches!(b, b'0'..=b'9' | b'a'..=b'f')
}

// The bytes that hexadecimal digits say, to the front of out, as far as both reach; the rest of out stays.
// Shut out: the low digit first; a third of the digits.
pub fn read_bytes(f: &[u8], out: &mut [u8])
    ensures { out.new ≡ take (length out.old) (bytes_of f.now) ++ drop (length (bytes_of f.now)) out.old }
{
    let n = (f.len() / 2).min(out.len());
    for i in 0..n {
        out[i] = byte(f[2 * i], f[2 * i + 1]);
    }
}

// By hand: `to_digit` of char takes upper case too, and `hex_of` of specs/ has 0 for any other byte.

// The byte that two digits say.
#[tactic(auto, using(crate::proofs::Bytes::hex_lt))]
fn byte(a: u8, b: u8) -> u8
    ensures { result ≡ hex_of a * 16 + hex_of b }
{
    hex(a) * 16 + hex(b)
}

// The value of a hexadecimal digit; 0 for any other byte.
#[tactic(auto, unfolding(crate::specs::Read::is_digit, crate::specs::Read::digit_of, crate::specs::Read::is_hex, crate::specs::Read::hex_of))]
fn hex(b: u8) -> u8
    ensures { result ≡ hex_of b }
{
    match b {
        b'0'..=b'9' => b - b'0',
        b'a'..=b'f' => b - b'a' + 10,
        _ => 0,
    }
}
