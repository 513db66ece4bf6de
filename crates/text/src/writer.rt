// Text that is written to a buffer, one piece behind the other.
ghost use Rattle.std.specs.Prelude.{◌≡◌, ◌*◌, ◌≤◌, ◌<◌, length, drop};
ghost use Rattle.text.specs.Write.{digit_byte, hex_byte, decimal, hexadecimal, appended, end_of};

// A buffer, and the place where what is written ends.
#[derive(Drop)]
pub struct Writer<'a> {
    pub out: &'a mut [u8],
    pub end: usize,
}

impl<'a> Writer<'a> {
    // Writes s at the end; nothing where there is no room.
    // Shut out: must-fail/exact_fit_refused; s written at the place 0.
    #[tactic(auto, using(crate::proofs::Buffers::append_cases), unfolding(crate::specs::Steps::placed))]
    pub fn append(&mut self, s: &[u8])
        ensures same { self.new.out.ghost_name ≡ self.old.out.ghost_name }
        ensures written { self.new.out.now ≡ appended self.old.end s.now self.old.out.now }
        ensures end { self.new.end ≡ end_of self.old.end s.now self.old.out.now }
    {
        let len = self.out.len();
        if len < self.end || len - self.end < s.len() {
            return;
        }
        let end = self.end + s.len();
        self.out[self.end..end].copy_from_slice(s);
        self.end = end;
    }

    // The same as `append` with the decimal digits of x.
    // Shut out: a zero behind the digits; the digits of the place.
    pub fn append_decimal(&mut self, x: usize)
        ensures same { self.new.out.ghost_name ≡ self.old.out.ghost_name }
        ensures written { self.new.out.now ≡ appended self.old.end (decimal x) self.old.out.now }
        ensures end { self.new.end ≡ end_of self.old.end (decimal x) self.old.out.now }
    {
        let mut digits = [0u8; 20];
        let start = write_digits(&mut digits, x);
        self.append(&digits[start..]);
    }

    // The same as `append` with the bytes s in hexadecimal.
    // Shut out: the low digit first; upper case.
    #[tactic(auto, using(crate::proofs::Buffers::append_cases), unfolding(crate::specs::Steps::placed))]
    pub fn append_hex(&mut self, s: &[u8])
        ensures same { self.new.out.ghost_name ≡ self.old.out.ghost_name }
        ensures written { self.new.out.now ≡ appended self.old.end (hexadecimal s.now) self.old.out.now }
        ensures end { self.new.end ≡ end_of self.old.end (hexadecimal s.now) self.old.out.now }
    {
        let len = self.out.len();
        if len < self.end || (len - self.end) / 2 < s.len() {
            return;
        }
        let end = self.end + 2 * s.len();
        write_hex(&mut self.out[self.end..end], s);
        self.end = end;
    }
}

// Writes the decimal digits of x at the end of b and answers where they start. By hand: what std's Display writes is known of a String or a Vec alone,
// and there is no heap.
fn write_digits(b: &mut [u8; 20], x: usize) -> usize
    ensures { (result ≤ 20) × (drop result b.new ≡ decimal x) }
{
    let mut at: usize = 19;
    let mut y = x;
    while y >= 10 {
        b[at] = digit_byte(y % 10);
        y /= 10;
        at -= 1;
    }
    b[at] = digit_byte(y);
    at
}

// The digits below are made by hand, for the reason at `write_digits`.

// The byte of a decimal digit.
fn digit_byte(d: usize) -> u8
    requires { d < 10 }
    ensures { result ≡ digit_byte d }
{
    b'0' + d as u8
}

// Writes bytes in hexadecimal, two digits each.
fn write_hex(out: &mut [u8], s: &[u8])
    requires { length out.old ≡ 2 * length s.now }
    ensures { out.new ≡ hexadecimal s.now }
{
    for (i, b) in s.iter().enumerate() {
        out[2 * i] = hex_byte(*b / 16);
        out[2 * i + 1] = hex_byte(*b % 16);
    }
}

// The byte of a hexadecimal digit.
#[tactic(auto, unfolding(crate::specs::Write::hex_byte))]
fn hex_byte(d: u8) -> u8
    requires { d < 16 }
    ensures { result ≡ hex_byte d }
{
    match d {
        0..=9 => b'0' + d,
        _ => b'a' + (d - 10),
    }
}
