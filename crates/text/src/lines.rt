// Lines of a text and fields of a line. A place past the end has an empty line and an empty field.
ghost use Rattle.std.specs.Prelude.{◌≡◌, drop};
ghost use Rattle.text.specs.Read.{before};
ghost use Rattle.text.specs.Lines.{line_at, named_at, numbers_of};

// The numbers in the first fields of a line, with zeros behind them, and where what follows these fields starts.
#[derive(Clone, Copy)]
pub struct Numbers {
    pub values: [usize; 4],
    pub end: usize,
}

// What stands in s from `at` on.
// Shut out: the byte at `at` left out; all of s for a place past its end.
pub fn tail(s: &[u8], at: usize) -> &[u8]
    ensures { result.now ≡ drop at s.now }
{
    &s[at.min(s.len())..]
}

// What stands in s from `at` to the next byte c.
#[tactic(auto, using(crate::proofs::Fields::until_some, crate::proofs::Fields::until_none))]
fn until(s: &[u8], at: usize, c: u8) -> &[u8]
    ensures { result.now ≡ before c (drop at s.now) }
{
    let rest = tail(s, at);
    match crate::find(rest, c) {
        Some(end) => &rest[..end],
        None => rest,
    }
}

// The line that starts at `at`, without its newline.
// Shut out: the newline with the line; the line up to a comma.
#[tactic(auto, unfolding(crate::specs::Lines::line_at))]
pub fn line_at(input: &[u8], at: usize) -> &[u8]
    ensures { result.now ≡ line_at input.now at }
{
    until(input, at, b'\n')
}

// Where the line after a line of these names starts; none where the line at `at` is another, or has no newline.
// Shut out: names without a newline accepted; the place of the newline.
#[tactic(auto, using(crate::proofs::LineParts::names_cases))]
pub fn after_names(input: &[u8], at: usize, names: &[u8]) -> Option<usize>
    ensures { result ≡ named_at names.now input.now at }
{
    if input.len() <= at {
        return None;
    }
    let l = line_at(input, at);
    let end = at + l.len();
    if input.len() <= end || l != names {
        return None;
    }
    Some(end + 1)
}

// The numbers in the first fields of l, each in a range of its own, and four at most. `ranges` has the lowest and the highest number of each range
// in turn; a number too many is not read.
// The place is counted: the answer has where what follows the fields starts, which `split` does not say.
// Shut out: the place of the comma as the end; the first range for each field; must-fail/odd_list_refused.
pub fn read_numbers(l: &[u8], ranges: &[u32]) -> Option<Numbers>
    ensures { result ≡ numbers_of ranges.now l.now }
{
    let count = ranges.len() / 2;
    if count > 4 {
        return None;
    }
    let mut values = [0usize; 4];
    let mut at: usize = 0;
    for i in 0..count {
        let f = until(l, at, b',');
        let x = crate::read_number(f, ranges[2 * i], ranges[2 * i + 1])?;
        values[i] = x as usize;
        at += f.len() + 1;
    }
    let rest = tail(l, at);
    let end = l.len() - rest.len();
    Some(Numbers { values, end })
}
