// Prints rounds, calls and lengths for t 1 to 5 and for settings that are refused, and what slots of several runs read and write (document 02, U11).
// A line `slot run j offset: message`: slot j of one inbox read in a run, with where the message starts. The other reads have a name in place of run
// and j; a write has a name and all bytes of the outbox after it.
// The expected output comes from the independent reference:
//     cargo run --release --bin wire_vectors > crates/wire_cases/stdout
#![tactic(auto)]

use std::io;
use wire::Layout;

// Settings, taken or refused.
#[derive(Clone, Copy)]
struct Sizes {
    n: usize,
    t: usize,
    k: usize,
}

impl Sizes {
    // One number c: kinds, phase, message length, inbox and outbox of call c.
    fn print_call(self, rt: &impl Print, c: usize) -> io::Result<()> {
        let Sizes { n, t, k } = self;
        cases::numbers(
            rt,
            b"c",
            &[
                c,
                wire::round_kind(t, c) as usize,
                wire::call_kind(t, c) as usize,
                wire::phase(c),
                wire::message_length(n, t, k, c),
                wire::inbox_length(n, t, k, c),
                wire::outbox_length(n, t, k, c),
            ],
        )?;
        cases::newline(rt)
    }

    // The settings, and how many rounds, calls and bytes of a block they have.
    fn print(self, rt: &impl Print) -> io::Result<()> {
        let Sizes { n, t, k } = self;
        cases::numbers(
            rt,
            b"settings",
            &[
                n,
                t,
                k,
                wire::rounds(t),
                wire::calls(t),
                wire::block_length(n, t, k),
            ],
        )?;
        cases::newline(rt)
    }

    // The settings, and each number below `end`.
    fn print_table(self, rt: &impl Print, end: usize) -> io::Result<()> {
        self.print(rt)?;
        for c in 0..end {
            self.print_call(rt, c)?;
        }
        Ok(())
    }
}

// Where the message of a slot starts, and its bytes.
fn read(
    rt: &impl Print,
    name: &[u8],
    inbox: &[u8],
    layout: Layout,
    number: usize,
) -> io::Result<()> {
    cases::numbers(rt, name, &[wire::offset(inbox, layout, number)])?;
    cases::byte_line(rt, b":", wire::message(inbox, layout, number))
}

// Slot j, in a run, of an inbox of seven slots. 1, 3, 5, 6 and 7 are of the runs 1, 256, 65535, 0 and 257; 2 and 4 have another first byte than 01.
fn slot(rt: &impl Print, run: u16, j: usize) -> io::Result<()> {
    cases::numbers(rt, b"slot", &[run as usize, j])?;
    read(
        rt,
        b"",
        b"\x01\x01\x00\x05\x06\x02\x01\x00\x07\x08\x01\x00\x01\x09\x0a\x00\x00\x00\x0b\x0c\x01\xff\xff\x0d\x0e\x01\x00\x00\x0f\x10\x01\x01\x01\x11\x12",
        wire::layout_with(run, 2),
        j,
    )
}

// All slots in a run, and numbers that the inbox does not hold.
fn slots(rt: &impl Print, run: u16) -> io::Result<()> {
    for j in [1, 2, 3, 4, 5, 6, 7, 0, 8] {
        slot(rt, run, j)?;
    }
    Ok(())
}

// Slot 1 of an inbox of one slot, the lengths being such that no slot of them is held.
fn read_long(rt: &impl Print, name: &[u8], length: usize) -> io::Result<()> {
    read(
        rt,
        name,
        b"\x01\x05\x00\x06\x07",
        wire::layout_with(5, length),
        1,
    )
}

// Reads of slots. Eight times the number that wraps is 8 more than there are numbers.
fn reads(rt: &impl Print) -> io::Result<()> {
    for run in [0, 1, 255, 256, 257, 65280, 65535] {
        slots(rt, run)?;
    }
    let two = wire::layout_with(5, 2);
    read(
        rt,
        b"not whole",
        b"\x01\x05\x00\x06\x07\x01\x05\x00\x08",
        two,
        2,
    )?;
    read(
        rt,
        b"longer",
        b"\x01\x05\x00\x06\x07\x01\x05\x00\x08\x09\x01",
        two,
        2,
    )?;
    read(rt, b"no bytes", b"", two, 1)?;
    read(rt, b"two bytes", b"\x01\x05", wire::layout_with(5, 0), 1)?;
    read_long(rt, b"too long", 3)?;
    read_long(rt, b"largest length but two", usize::MAX - 2)?;
    read_long(rt, b"largest length but one", usize::MAX - 1)?;
    read_long(rt, b"largest length", usize::MAX)?;
    read(
        rt,
        b"largest number",
        b"\x01\x05\x00\x06\x07",
        two,
        usize::MAX,
    )?;
    read(
        rt,
        b"number that wraps",
        b"\x01\x05\x00\x06\x07\x08\x09\x0a",
        wire::layout_with(5, 5),
        2305843009213693953,
    )
}

// An outbox, slots of messages of two bytes, and where all of it is printed after each write.
#[derive(Drop)]
struct Written<'a, P: Print> {
    rt: &'a P,
    outbox: [u8; 20],
}

impl<P: Print> Written<'_, P> {
    fn print(&self, name: &[u8]) -> io::Result<()> {
        cases::byte_line(self.rt, name, &self.outbox)
    }

    // Slot j, written with m in a run.
    fn send(&mut self, name: &[u8], run: u16, j: usize, m: &[u8]) -> io::Result<()> {
        wire::send_one(&mut self.outbox, wire::layout_with(run, 2), j, m);
        self.print(name)
    }

    // A message written to n slots.
    fn send_all(&mut self, name: &[u8], run: u16, n: usize) -> io::Result<()> {
        wire::send_all(&mut self.outbox, wire::layout_with(run, 2), n, b"\x08\x09");
        self.print(name)
    }

    // Slot 2 becomes the given slot, of whatever run.
    fn relay(&mut self, name: &[u8], run: u16, slot: &[u8]) -> io::Result<()> {
        wire::relay(&mut self.outbox, wire::layout_with(run, 2), 2, slot, 1);
        self.print(name)
    }
}

// Writes of slots.
fn writes(rt: &impl Print) -> io::Result<()> {
    let mut w = Written {
        rt,
        outbox: [7u8; 20],
    };
    w.send(b"one", 258, 2, b"\x05\x06")?;
    w.send(b"past", 258, 5, b"\x08\x09")?;
    w.send(b"zero", 258, 0, b"\x08\x09")?;
    w.send(b"too long", 258, 1, b"\x08\x09\x0a")?;
    w.send(b"run 0", 0, 3, b"\x05\x06")?;
    w.send_all(b"not three", 1, 3)?;
    w.send_all(b"all", 256, 4)?;
    w.send_all(b"all", 65535, 4)?;
    w.relay(b"relayed", 1, b"\x01\x02\x00\x05\x06")?;
    wire::silence(&mut w.outbox);
    w.print(b"silence")?;
    wire::copy(&mut w.outbox, b"\x01\x02\x03");
    w.print(b"copy")
}

fn main(rt: HostRuntime) -> io::Result<()> {
    let tables = [
        (4, 1, 1, 14),
        (7, 2, 2, 17),
        (10, 3, 32, 20),
        (13, 4, 100, 23),
        (16, 5, 128, 26),
        (16, 1, 128, 14),
        (3, 1, 1, 3),
        (17, 1, 1, 3),
        (4, 0, 1, 3),
        (4, 2, 1, 3),
        (7, 2, 129, 3),
        (7, 2, 0, 3),
        (usize::MAX, 1, 1, 3),
        (16, usize::MAX, 1, 3),
        (16, 5, usize::MAX, 3),
    ];
    for (n, t, k, end) in tables {
        Sizes { n, t, k }.print_table(&rt, end)?;
    }
    for t in [5, usize::MAX] {
        Sizes { n: 16, t, k: 128 }.print_call(&rt, usize::MAX)?;
    }
    reads(&rt)?;
    writes(&rt)
}
