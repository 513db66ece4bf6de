// Definitions and laws of sums, counts and lists for the crates above, the comparison of two byte strings, and the bytes of 16-bit numbers.
#![tactic(auto)]

ghost use Rattle.std.specs.Prelude.{◌≡◌, ◌+◌, ◌*◌, ◌/◌, ◌%◌};
ghost use Rattle.lists.specs.Same.{same};

// Whether two byte strings are equal, byte for byte. A name for ==, since its clause says `same`, of which the definitions and laws above speak.
// Shut out: equal where a is a front of b; bytes told apart only where that of a is smaller.
pub fn is_equal(a: &[u8], b: &[u8]) -> bool
    ensures { result ≡ same a.now b.now }
{
    a == b
}

// The three below are names for the library's conversions: their clauses say the remainder, the quotient and the sum, by which the crates above reason.

// The low byte of a 16-bit number.
// Shut out: the high byte; the low seven bits.
pub fn low(x: u16) -> u8
    ensures { result ≡ x % 256 }
{
    x.to_le_bytes()[0]
}

// The high byte of a 16-bit number.
// Shut out: the low byte; the high nine bits.
pub fn high(x: u16) -> u8
    ensures { result ≡ x / 256 }
{
    x.to_le_bytes()[1]
}

// The number with these two bytes.
// Shut out: the high byte first; the low byte alone.
pub fn word(low: u8, high: u8) -> u16
    ensures { result ≡ low + 256 * high }
{
    u16::from_le_bytes([low, high])
}
