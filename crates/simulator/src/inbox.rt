// The inbox that a controller is lent: what the file says of the faulty ones, and what the outboxes of the others hold, slot by slot.
ghost use Rattle.std.specs.Prelude.{◌≡◌, [], ◌+◌, ◌*◌, ◌≤◌, length, take};
ghost use Rattle.wire.specs.Slot.{put_slot};
ghost use Rattle.system_file.specs.Table.{text_of};
ghost use Rattle.simulation.specs.Run.{inbox_of};
ghost use Rattle.simulator.specs.Steps.{Making, inbox_in, scene, sent_by};

use crate::RUN;
use crate::run::{Outbox, Outboxes, Script};
use wire::Layout;

// The first o bytes of an outbox.
fn front(outbox: &Outbox, o: usize) -> &[u8]
    requires { o ≤ 3120 }
    ensures { (result.now ≡ take o outbox.now) × (length result.now ≡ o) }
{
    &outbox[..o]
}

impl Script<'_> {
    // Slot j of an inbox with the message whose digits start at byte `place` of the file, by way of m.
    fn fill_said(&self, place: usize, layout: Layout, j: usize, m: &mut [u8], inbox: &mut [u8])
        requires { (length m.old ≡ layout.length) × (length self.now.input.now ≤ 65536) × (1 ≤ place) × (place + 2 * layout.length ≤ length self.now.input.now) }
        ensures { inbox.new ≡ put_slot inbox.old layout j (text_of self.now.input.now layout.length place) }
    {
        let end = place + 2 * layout.length;
        text::read_bytes(&self.input[place..end], m);
        wire::send_one(inbox, layout, j, m);
    }

    // The inbox of controller i for round c, which comes cleared. From a faulty controller it has what the file says, from another one slot i of the
    // outbox.
    fn fill_inbox(&self, c: usize, i: usize, sent: &Outboxes, inbox: &mut [u8])
        requires { Making self.now.input.now self.now.file.now c i inbox.old × (1 ≤ c) }
        ensures { inbox.new ≡ inbox_of (scene self.now.input.now self.now.file.now []) c (sent_by sent.now (inbox_in self.now.file.now.settings c)) i }
    {
        let s = self.file.settings;
        let layout = wire::round_layout(RUN, s.n, s.t, s.k, c);
        let o = inbox.len();
        let mut message = [0u8; 192];
        let m = &mut message[..layout.length];
        for j in 0..s.n {
            if !bitset::member(self.file.faulty, j) {
                wire::relay(inbox, layout, j + 1, front(&sent[j], o), i);
            } else if let Some(place) = system_file::place_of(&self.file.places, c, j + 1, i) {
                self.fill_said(place, layout, j + 1, m, inbox);
            }
        }
    }

    // The inbox of controller i for the call after c, which comes cleared; it has length 0 for the first call.
    pub(crate) fn make_inbox(&self, c: usize, i: usize, sent: &Outboxes, inbox: &mut [u8])
        requires { Making self.now.input.now self.now.file.now c i inbox.old }
        ensures { inbox.new ≡ inbox_of (scene self.now.input.now self.now.file.now []) c (sent_by sent.now (inbox_in self.now.file.now.settings c)) i }
    {
        if c != 0 {
            self.fill_inbox(c, i, sent, inbox);
        }
    }
}
