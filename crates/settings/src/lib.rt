// The settings of a run, and which of them are refused with which number (document 01, 'Turned down', rows 1 to 6; row 5 as document 02, U6,
// has it).
#![tactic(auto)]

ghost use Rattle.std.specs.Prelude.{◌≡◌, map};
ghost use Rattle.settings.specs.Refusal.{outside, too_many, broken, tried, refusal_of};
ghost use Rattle.settings.specs.Refusal.{partial, state_refusal, encoding_refusal, decoding_refusal, lengths_refusal, star_refusal};
ghost use Rattle.settings.specs.Number.{row_of, number_of};

// What all controllers of a system share: n controllers of which at most t are faulty, k stripes, the sender; sender 0: none, as the definitions, the
// files and the C interface have it (document 02, U6).
#[derive(Clone, Copy, PartialEq, Eq)]
pub struct Settings {
    pub n: usize,
    pub t: usize,
    pub k: usize,
    pub sender: usize,
}

// Why a call is refused: the rows of the table, 1 to 8 in this order.
#[derive(Clone, Copy, PartialEq, Eq)]
pub enum Refusal {
    // n is out of range
    Controllers,
    // t is 0, or 3t + 1 exceeds n
    Tolerance,
    // k is out of range
    Stripes,
    // the own number, or that of a piece, is no controller's
    Number,
    // the sender is out of range
    Sender,
    // a lent length is not the stated one
    Length,
    // the state given is none that a run can have
    State,
    // the run has ended
    Finished,
}

// The number of the row.
// Shut out: 0 for row 1; must-fail/number_of_another_row.
impl From<Refusal> for u8 {
    ghost from_gives = { λ r x. x ≡ row_of r };

    fn from(refusal: Refusal) -> u8 {
        match refusal {
            Refusal::Controllers => 1,
            Refusal::Tolerance => 2,
            Refusal::Stripes => 3,
            Refusal::Number => 4,
            Refusal::Sender => 5,
            Refusal::Length => 6,
            Refusal::State => 7,
            Refusal::Finished => 8,
        }
    }
}

// Who tries the table: each entry point tries rows of its own.
#[derive(Clone, Copy)]
pub enum Entry {
    // start: 1 to 6
    Start,
    // the settings and own number of a given state: 1 to 5
    State,
    // coding: 1, 2, 3, 4, 6
    Encode,
    // decoding: 1, 2, 3, 6
    Decode,
    // message lengths: 1, 2, 3
    Lengths,
    // the star: 1, 2
    Star,
}

// Whether x is outside low .. high, in the two tests of `outside`: a range that is asked and negated is no plainer.
#[tactic(auto, unfolding(crate::specs::Refusal::outside))]
fn is_outside(low: usize, high: usize, x: usize) -> bool
    ensures { result ≡ outside low high x }
{
    x < low || high < x
}

// Row 2: t is 0, or 3t + 1 exceeds n; no sum can overflow.
fn too_many(n: usize, t: usize) -> bool
    ensures { result ≡ too_many n t }
{
    t == 0 || n.saturating_sub(1) / 3 < t
}

// Whether the settings and a controller's number (its own, or that of a piece) break a row; `fits` says that each lent length is the stated
// one.
#[tactic(auto, unfolding(crate::specs::Refusal::broken))]
fn breaks(s: Settings, number: usize, fits: bool, row: Refusal) -> bool
    ensures { result ≡ broken s number fits (row_of row) }
{
    match row {
        Refusal::Controllers => is_outside(4, 16, s.n),
        Refusal::Tolerance => too_many(s.n, s.t),
        Refusal::Stripes => is_outside(1, 128, s.k),
        Refusal::Number => is_outside(1, s.n, number),
        Refusal::Sender => is_outside(0, s.n, s.sender),
        Refusal::Length => !fits,
        Refusal::State | Refusal::Finished => false,
    }
}

// The rows that an entry point tries, in their order.
fn rows(entry: Entry) -> &'static [Refusal]
    ensures { map row_of result.now ≡ tried entry }
{
    use Refusal::{Controllers, Length, Number, Sender, Stripes, Tolerance};
    match entry {
        Entry::Start => &[Controllers, Tolerance, Stripes, Number, Sender, Length],
        Entry::State => &[Controllers, Tolerance, Stripes, Number, Sender],
        Entry::Encode => &[Controllers, Tolerance, Stripes, Number, Length],
        Entry::Decode => &[Controllers, Tolerance, Stripes, Length],
        Entry::Lengths => &[Controllers, Tolerance, Stripes],
        Entry::Star => &[Controllers, Tolerance],
    }
}

// The first row, of those that the entry point tries, that the settings, the number and the lent lengths break.
// Shut out: must-fail/largest_n; must-fail/rows_in_another_order; must-fail/start_always_refuses; must-fail/sender_past_n.
pub fn check(entry: Entry, s: Settings, number: usize, fits: bool) -> Result<(), Refusal>
    ensures { number_of result ≡ refusal_of entry s number fits }
{
    for row in rows(entry) {
        if breaks(s, number, fits, *row) {
            return Err(*row);
        }
    }
    Ok(())
}

// What an entry point does not try has this value, which is in range.
const UNTRIED: usize = 1;

// Settings whose sender is not tried.
fn partial(n: usize, t: usize, k: usize) -> Settings
    ensures { result ≡ partial n t k }
{
    Settings {
        n,
        t,
        k,
        sender: UNTRIED,
    }
}

// The settings and the own number of a given state.
// Shut out: the sender for the own number; t for n.
#[tactic(auto, unfolding(crate::specs::Refusal::state_refusal))]
pub fn state_refusal(s: Settings, own: usize) -> Result<(), Refusal>
    ensures { number_of result ≡ state_refusal s own }
{
    check(Entry::State, s, own, true)
}

// The entry points below have no sender, so n, t and k come by themselves, as the clauses and the C interface name them.

// Coding: `number` is that of the piece, `fits` says that the lent lengths are the stated ones.
// Shut out: the rows of decoding; k for the number.
#[tactic(auto, unfolding(crate::specs::Refusal::encoding_refusal))]
pub fn encoding_refusal(
    n: usize,
    t: usize,
    k: usize,
    number: usize,
    fits: bool,
) -> Result<(), Refusal>
    ensures { number_of result ≡ encoding_refusal n t k number fits }
{
    check(Entry::Encode, partial(n, t, k), number, fits)
}

// Decoding.
// Shut out: the rows of message lengths; `fits` not asked.
#[tactic(auto, unfolding(crate::specs::Refusal::decoding_refusal))]
pub fn decoding_refusal(n: usize, t: usize, k: usize, fits: bool) -> Result<(), Refusal>
    ensures { number_of result ≡ decoding_refusal n t k fits }
{
    check(Entry::Decode, partial(n, t, k), UNTRIED, fits)
}

// Message lengths.
// Shut out: the rows of the star; n and t the other way round.
#[tactic(auto, unfolding(crate::specs::Refusal::lengths_refusal))]
pub fn lengths_refusal(n: usize, t: usize, k: usize) -> Result<(), Refusal>
    ensures { number_of result ≡ lengths_refusal n t k }
{
    check(Entry::Lengths, partial(n, t, k), UNTRIED, true)
}

// The star.
// Shut out: the rows of message lengths with t for k; n and t the other way round.
#[tactic(auto, unfolding(crate::specs::Refusal::star_refusal))]
pub fn star_refusal(n: usize, t: usize) -> Result<(), Refusal>
    ensures { number_of result ≡ star_refusal n t }
{
    check(Entry::Star, partial(n, t, UNTRIED), UNTRIED, true)
}
