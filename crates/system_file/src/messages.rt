// The message lines, into the table of places.
ghost use Rattle.std.specs.Prelude.{◌≡◌, [], ◌+◌, ◌^◌, ◌<◌, length};
ghost use Rattle.settings.specs.Valid.{Coded};
ghost use Rattle.system_file.specs.Form.{read_from};
ghost use Rattle.system_file.specs.Table.{table_size, table_of};
ghost use Rattle.system_file.specs.Steps.{line_in, message_ranges, entry_at, table_at, bare, lines_of, table_in, Started};

use crate::{FormError, table};
use settings::Settings;
use text::lines;

// What a message line says, with the byte of the file where its message starts.
#[derive(Clone, Copy)]
pub(crate) struct Said {
    pub round: usize,
    pub from: usize,
    pub to: usize,
    pub place: usize,
}

// A message line that was entered in the table: its sender, and where the next line starts.
#[derive(Clone, Copy)]
struct Entry {
    from: usize,
    next: usize,
}

// The message lines from `start` on, into the table: the faulty controllers, or the first wrong line.
pub(crate) fn read_messages(
    input: &[u8],
    start: usize,
    s: Settings,
    places: &mut [u16],
) -> Result<u16, FormError>
    requires started { Started input.now s start }
    requires places_value { places.old ≡ table_of [] }
    ensures value { result ≡ lines_of (read_from (length input.now) input.now (bare s []) start 4) }
    ensures places_after { places.new ≡ table_in (read_from (length input.now) input.now (bare s []) start 4) places.new }
{
    let mut at = start;
    let mut line: usize = 4;
    let mut faulty: u16 = 0;
    // no `for`, and `line` counted beside `at`: each line says where the next one starts, and the number of a wrong one is in the answer
    while at < input.len() {
        let Some(entry) = enter_line(input, at, s, places) else {
            return Err(FormError::Line(line));
        };
        faulty = bitset::insert(faulty, entry.from - 1);
        at = entry.next;
        line += 1;
    }
    Ok(faulty)
}

// The message line at `at`, into the table.
fn enter_line(input: &[u8], at: usize, s: Settings, places: &mut [u16]) -> Option<Entry>
    requires { Started input.now s at × (length places.old ≡ table_size) }
    ensures value { result ≡ entry_at s input.now at places.old }
    ensures places_after { places.new ≡ table_at s input.now at places.old }
{
    let l = lines::line_at(input, at);
    let end = at + l.len();
    if input.len() <= end {
        return None;
    }
    let message = message_line(l, at, s)?;
    if !table::enter(places, message) {
        return None;
    }
    Some(Entry {
        from: message.from,
        next: end + 1,
    })
}

// The message in a line that stands at `at`.
fn message_line(l: &[u8], at: usize, s: Settings) -> Option<Said>
    requires { Coded s.n s.t s.k × (at + length l.now < 2 ^ 64) }
    ensures { result ≡ line_in s l.now at }
{
    let numbers = lines::read_numbers(l, &ranges(s))?;
    let [round, from, to, _] = numbers.values;
    let message = lines::tail(l, numbers.end);
    let len = wire::message_length(s.n, s.t, s.k, round);
    if !text::is_bytes(message, len) {
        return None;
    }
    Some(Said {
        round,
        from,
        to,
        place: at + numbers.end,
    })
}

// The ranges of the numbers in a message line: round, from, to.
fn ranges(s: Settings) -> [u32; 6]
    requires { Coded s.n s.t s.k }
    ensures { result ≡ message_ranges s }
{
    let n = s.n as u32;
    [1, 3 * s.t as u32 + 8, 1, n, 0, n]
}
