// The simulator as a program (document 01, 'The house program'): a system file comes on standard input, and its output goes to standard output.
// One byte more than the longest file is read, so that a file that is too long is known.
#![tactic(auto)]

use std::io;

fn main(rt: HostRuntime) -> io::Result<()> {
    let mut input = [0u8; 65537];
    let length = simulator::read_full(&mut rt.reader(), &mut input)?;
    let output = simulator::simulate(&input[..length]);
    rt.write_all(output.as_slice())
}
