// The simulator (document 01, 'The house program'): plays what a system file says and writes the outcome and block of each correct
// controller; or writes which line of the file is wrong.
#![tactic(auto)]

mod inbox;
mod input;
mod lines;
mod run;

ghost use Rattle.std.specs.Prelude.{◌≡◌, Ok, length, take};
ghost use Rattle.text.specs.Write.{padded};
ghost use Rattle.system_file.specs.Form.{read_of};
ghost use Rattle.system_file.specs.Table.{file_of};
ghost use Rattle.simulator.specs.Output.{simulated};

pub use input::read_full;
use run::Script;
use system_file::SystemFile;

// The run number of a simulated run (document 02, U11).
pub(crate) const RUN: u16 = 0;

// The output: its bytes stand at the front of `bytes`, `length` of them, and zeros follow. The clause of `simulate` names both.
#[derive(Drop)]
pub struct Output {
    pub bytes: [u8; 6400],
    pub length: usize,
}

impl Output {
    // The bytes of the output.
    // Shut out: the zeros too; must-fail/last_byte_left.
    pub fn as_slice(&self) -> &[u8]
        ensures { result.now ≡ take self.now.length self.now.bytes }
    {
        &self.bytes[..self.length.min(6400)]
    }
}

// The output for a file that has its form.
fn play_file(input: &[u8], file: &SystemFile) -> Output
    requires { Ok file.now ≡ file_of (read_of input.now) }
    ensures { (result.bytes ≡ padded 6400 (simulated input.now)) × (result.length ≡ length (simulated input.now)) }
{
    let script = Script { input, file };
    let controllers = script.play();
    lines::results(file, &controllers)
}

// The output for a file.
// Shut out: bad,0 for every wrong file; must-fail/faulty_played_as_correct.
pub fn simulate(input: &[u8]) -> Output
    ensures { (result.bytes ≡ padded 6400 (simulated input.now)) × (result.length ≡ length (simulated input.now)) }
{
    match system_file::read(input) {
        Ok(file) => play_file(input, &file),
        Err(error) => lines::bad(usize::from(error)),
    }
}
