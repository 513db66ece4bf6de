// The reader of system files (document 01, 'The house program'): the settings, the block, who is faulty, and where in the file each message
// stands, in one pass; or the first wrong line.
#![tactic(auto)]

mod head;
mod messages;
mod table;

ghost use Rattle.std.specs.Prelude.{◌≡◌, length};
ghost use Rattle.system_file.specs.Form.{read_from, read_of};
ghost use Rattle.system_file.specs.Table.{file_of, line_of};
ghost use Rattle.system_file.specs.Steps.{block_at, opened, Opened};

use head::Head;
use settings::Settings;
pub use table::place_of;
use text::lines;

// The most bytes that a file has.
const LIMIT: usize = 65536;

// Why a file has not its form.
#[derive(Clone, Copy, PartialEq, Eq)]
pub enum FormError {
    TooLong,
    // the first wrong or missing line
    Line(usize),
}

// The number of the line; 0 for a file that is too long.
// Shut out: must-fail/too_long_numbered; the number of the next line.
impl From<FormError> for usize {
    ghost from_gives = { λ e x. x ≡ line_of e };

    fn from(error: FormError) -> usize {
        match error {
            FormError::TooLong => 0,
            FormError::Line(line) => line,
        }
    }
}

// What a file says. The block's bytes stand at the front of `block`. `faulty` is the set of those that stand under `from`. `places` has, for each
// round, sender and receiver, the byte of the file where the message starts, 0 for none.
// Memory is fixed: the block's array is as long as the longest, and the settings say how much counts. Why a place is a number: see table.rt.
#[derive(Drop)]
pub struct SystemFile {
    pub settings: Settings,
    pub block: [u8; 192],
    pub faulty: u16,
    pub places: [u16; 5888],
}

// Reads a system file.
// Shut out: must-fail/duplicate_accepted; must-fail/line_number_off_by_one.
pub fn read(input: &[u8]) -> Result<SystemFile, FormError>
    ensures { result ≡ file_of (read_of input.now) }
{
    if LIMIT < input.len() {
        return Err(FormError::TooLong);
    }
    let Some(first) = lines::after_names(input, 0, b"controllers,tolerance,stripes,sender,block")
    else {
        return Err(FormError::Line(1));
    };
    let Some(head) = head::settings_at(input, first) else {
        return Err(FormError::Line(2));
    };
    let Some(third) = lines::after_names(input, head.end + 1, b"round,from,to,message") else {
        return Err(FormError::Line(3));
    };
    contents(input, head, third)
}

// The block and the messages of a file with this head, whose message lines start at `at`.
fn contents(input: &[u8], head: Head, at: usize) -> Result<SystemFile, FormError>
    requires { Opened input.now head.settings head.start head.end at }
    ensures { result ≡ file_of (read_from (length input.now) input.now (opened head.settings (block_at input.now head.start head.end)) at 4) }
{
    let mut block = [0u8; 192];
    text::read_bytes(&input[head.start..head.end], &mut block);
    let mut places = [0u16; 5888];
    let faulty = messages::read_messages(input, at, head.settings, &mut places)?;
    Ok(SystemFile {
        settings: head.settings,
        block,
        faulty,
        places,
    })
}
