// Plays each system file that its arguments name: the files of data/, right ones and broken ones. For each it writes the name and then the
// simulator's output. Files, names and the expected output come from the independent reference:
//     cargo run --release --bin system_files -- crates/simulator_cases
#![tactic(auto)]

ghost use Rattle.std.specs.Prelude.{◌≤◌, length, IfOk};

use std::env::FillError;
use std::io::{Read, Write};
use std::rt::{Env, Files};
use std::{fs, io};

// A name that is no UTF-8 is no name to std.
fn open<R: Files>(rt: &R, name: &[u8]) -> io::Result<R::File> {
    match std::str::from_utf8(name) {
        Ok(path) => fs::open(rt, path),
        Err(_) => Err(io::Error::from(io::ErrorKind::InvalidInput)),
    }
}

// The system's text for an error, without its number.
fn print_error(rt: &impl Print, error: io::Error) -> io::Result<()> {
    let mut space = [0u8; 320];
    let mut left: &mut [u8] = &mut space;
    write!(left, "{error}")?;
    let length = 320usize.saturating_sub(left.len());
    let text = std::str::from_utf8(&space[..length]).unwrap_or("");
    match text.split_once(" (os error ") {
        Some((front, _)) => rt.print(front),
        None => rt.print(text),
    }
}

// A line on what could not be opened.
fn fail(rt: &impl Print, name: &[u8], error: io::Error) -> io::Result<()> {
    cases::text(rt, name)?;
    cases::text(rt, b": ")?;
    print_error(rt, error)?;
    cases::newline(rt)
}

// What a file holds, as far as buf reaches; the file is closed before anything is done with it.
fn read(mut file: impl Read + Drop, buf: &mut [u8]) -> io::Result<usize>
    ensures { IfOk result (λ n. n ≤ length buf.new) }
{
    simulator::read_full(&mut file, buf)
}

// One file, of which one byte more than the longest is read.
fn play(rt: &(impl Files + Print), err: &impl Print, name: &[u8]) -> io::Result<()> {
    cases::text(rt, name)?;
    cases::newline(rt)?;
    let file = match open(rt, name) {
        Ok(file) => file,
        Err(error) => return fail(err, name, error),
    };
    let mut input = [0u8; 65537];
    let length = read(file, &mut input)?;
    let output = simulator::simulate(&input[..length]);
    cases::text(rt, output.as_slice())
}

// Argument i, and whether there is one. One that is too long has no name.
fn play_argument(rt: &(impl Env + Files + Print), err: &impl Print, i: usize) -> io::Result<bool> {
    let mut name = [0u8; 4096];
    match rt.arg(i, &mut name) {
        Ok(length) => play(rt, err, &name[..length])?,
        Err(FillError::TooLong) => play(rt, err, b"")?,
        Err(FillError::NotPresent) => return Ok(false),
    }
    Ok(true)
}

fn main(rt: HostRuntime) -> io::Result<()> {
    for i in 1..usize::MAX {
        if !play_argument(&rt, &rt.stderr(), i)? {
            break;
        }
    }
    Ok(())
}
