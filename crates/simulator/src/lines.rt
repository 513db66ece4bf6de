// The lines of the output.
ghost use Rattle.std.specs.Prelude.{◌≡◌, ◌*◌, ◌≤◌, ◌++◌, length};
ghost use Rattle.text.specs.Write.{padded};
ghost use Rattle.simulator.specs.Output.{result_line, bad_line, names_line};
ghost use Rattle.simulator.specs.Play.{FileSettings, block_in};
ghost use Rattle.simulator.specs.Steps.{Room, Wrote, results_of};

use crate::Output;
use crate::run::Controller;
use reconstruction::Outcome;
use system_file::SystemFile;
use text::writer::Writer;

// Appends the line of controller i.
fn append_result(w: &mut Writer, i: usize, outcome: Outcome, block: &[u8])
    requires { (i ≤ 16) × (length block.now ≤ 192) × Room w.old.out.now w.old.end 395 }
    ensures same { w.new.out.ghost_name ≡ w.old.out.ghost_name }
    ensures wrote { Wrote w.old.out.now w.old.end (result_line i outcome block.now) w.new.out.now w.new.end }
{
    w.append_decimal(i);
    w.append(b",");
    w.append(outcome.word());
    w.append(b",");
    w.append_hex(block);
    w.append(b"\n");
}

// b ≤ 192 is asked where a block is cut, as in run.rt: the array is of fixed size.
// Appends the lines of the correct controllers, each with b bytes of its block.
fn append_results(w: &mut Writer, file: &SystemFile, b: usize, controllers: &[Controller; 16])
    requires { (file.now.settings.n ≤ 16) × (b ≤ 192) × Room w.old.out.now w.old.end (file.now.settings.n * 395) }
    ensures same { w.new.out.ghost_name ≡ w.old.out.ghost_name }
    ensures wrote { Wrote w.old.out.now w.old.end (results_of file.now b controllers.now) w.new.out.now w.new.end }
{
    for i in 0..file.settings.n {
        if !bitset::member(file.faulty, i) {
            let outcome = controllers[i].state.outcome;
            append_result(w, i + 1, outcome, &controllers[i].block[..b]);
        }
    }
}

// Writes the output for a file that has its form to a buffer of zeros; answers its length.
fn write_results(
    out: &mut [u8],
    file: &SystemFile,
    b: usize,
    controllers: &[Controller; 16],
) -> usize
    requires { (file.now.settings.n ≤ 16) × (b ≤ 192) × Room out.old 0 6400 }
    ensures { Wrote out.old 0 (names_line ++ results_of file.now b controllers.now) out.new result }
{
    let mut w = Writer { out, end: 0 };
    w.append(b"controller,outcome,block\n");
    append_results(&mut w, file, b, controllers);
    w.end
}

// Writes the line that says which line of the file is wrong to a buffer of zeros; answers its length.
fn write_bad(out: &mut [u8], line: usize) -> usize
    requires { Room out.old 0 25 }
    ensures { Wrote out.old 0 (bad_line line) out.new result }
{
    let mut w = Writer { out, end: 0 };
    w.append(b"bad,");
    w.append_decimal(line);
    w.append(b"\n");
    w.end
}

// The output for a file that has its form, where the controllers end like this.
pub(crate) fn results(file: &SystemFile, controllers: &[Controller; 16]) -> Output
    requires { FileSettings file.now.settings }
    ensures { (result.bytes ≡ padded 6400 (names_line ++ results_of file.now (block_in file.now.settings) controllers.now)) × (result.length ≡ length (names_line ++ results_of file.now (block_in file.now.settings) controllers.now)) }
{
    let s = file.settings;
    let b = wire::block_length(s.n, s.t, s.k);
    let mut bytes = [0u8; 6400];
    let length = write_results(&mut bytes, file, b, controllers);
    Output { bytes, length }
}

// Not one function with `results`: it would take a closure that writes, and three of its four lines would stay.
// The output for a file whose first wrong line is `line`.
pub(crate) fn bad(line: usize) -> Output
    ensures { (result.bytes ≡ padded 6400 (bad_line line)) × (result.length ≡ length (bad_line line)) }
{
    let mut bytes = [0u8; 6400];
    let length = write_bad(&mut bytes, line);
    Output { bytes, length }
}
