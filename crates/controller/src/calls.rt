// What each call does, put together from the layers below (document 01, 'Rounds').
ghost use Rattle.std.specs.Prelude.{◌≡◌, [], ◌≤◌};
ghost use Rattle.wire.specs.Round.{call_kind};
ghost use Rattle.protocol.specs.State.{advanced};
ghost use Rattle.protocol.specs.Calls.{carried, inbox_layout, outbox_layout, core_of, settled_matrix, send_call, receive_call, compare_call, collect_call, tally_call, hold_call, settle_call, core_call, choose_call, finish_call, call_of};
ghost use Rattle.controller.specs.Steps.{Bounded};

use protocol::State;
use reconstruction::Outcome;
use settings::Settings;
use wire::{Call, Layout};

// E of the star of a matrix, which has no member where the star refuses n and t.
fn core_of(rows: &[u16; 16], n: usize, t: usize) -> u16
    ensures { result ≡ core_of rows.now n t }
{
    match star::find(rows, n, t) {
        Ok(sets) => sets.e,
        Err(_) => 0,
    }
}

// A state with a call to come that the table does not refuse. What is lent for the call stays parameters: of it each call takes what its definition names.
#[derive(Clone, Copy)]
pub(crate) struct Pending {
    pub(crate) state: State,
    ghost bounded: { Bounded state },
}

impl Pending {
    // The state at the next call, with nobody named.
    fn advance(self, outcome: Outcome) -> State
        ensures { result ≡ advanced self.state outcome }
    {
        self.state.with_call(self.state.next + 1, outcome)
    }

    // The state at the next call of a run that goes on.
    fn open(self) -> State
        ensures { result ≡ advanced self.state Outcome.Open }
    {
        self.advance(Outcome::Open)
    }

    // The layout of the slots in the inbox of the next call.
    fn inbox_layout(self) -> Layout
        ensures { result ≡ inbox_layout self.state }
    {
        let Settings { n, t, k, .. } = self.state.settings;
        wire::round_layout(self.state.run, n, t, k, self.state.next - 1)
    }

    // The layout of the slots in the outbox of the next call.
    fn outbox_layout(self) -> Layout
        ensures { result ≡ outbox_layout self.state }
    {
        let Settings { n, t, k, .. } = self.state.settings;
        wire::round_layout(self.state.run, n, t, k, self.state.next)
    }

    // Call 1.
    fn send_call(self, block: &[u8], outbox: &mut [u8]) -> State
        ensures { carried result block.now outbox.new ≡ send_call self.state block.now outbox.old }
    {
        dispersal::send_block(
            self.outbox_layout(),
            self.state.settings,
            self.state.own,
            block,
            outbox,
        );
        self.open()
    }

    // Call 2.
    fn receive_call(self, block: &mut [u8], inbox: &[u8], outbox: &mut [u8]) -> State
        ensures { carried result block.new outbox.new ≡ receive_call self.state block.old inbox.now outbox.old }
    {
        dispersal::receive_block(
            inbox,
            self.inbox_layout(),
            self.state.settings.sender,
            block,
        );
        dispersal::send_pieces(
            self.state.run,
            self.state.settings,
            self.state.own,
            block,
            outbox,
        );
        self.open()
    }

    // Call 3.
    fn compare_call(self, block: &[u8], inbox: &[u8], outbox: &mut [u8]) -> State
        ensures { carried result block.now outbox.new ≡ compare_call self.state block.now inbox.now outbox.old }
    {
        let marks = dispersal::marks(
            self.state.settings,
            self.state.own,
            inbox,
            self.inbox_layout(),
            block,
        );
        dispersal::send_marks(self.outbox_layout(), self.state.settings.n, marks, outbox);
        self.open()
    }

    // Call 4.
    fn collect_call(self, inbox: &[u8], outbox: &mut [u8]) -> State
        ensures { carried result [] outbox.new ≡ collect_call self.state [] inbox.now outbox.old }
    {
        let n = self.state.settings.n;
        let rows = phase_king::collect(inbox, self.inbox_layout(), n).rows;
        phase_king::send_matrix(outbox, self.outbox_layout(), &rows, n);
        self.open().with_matrix(rows)
    }

    // After 3p + 1.
    fn tally_call(self, inbox: &[u8], outbox: &mut [u8]) -> State
        ensures { carried result [] outbox.new ≡ tally_call self.state [] inbox.now outbox.old }
    {
        let Settings { n, t, .. } = self.state.settings;
        let seen = phase_king::tally(inbox, self.inbox_layout(), n, t);
        phase_king::send_seen(outbox, self.outbox_layout(), &seen.zeros, &seen.ones, n);
        self.open()
    }

    // After 3p + 2.
    fn hold_call(self, inbox: &[u8], outbox: &mut [u8]) -> State
        ensures { carried result [] outbox.new ≡ hold_call self.state [] inbox.now outbox.old }
    {
        let Settings { n, t, .. } = self.state.settings;
        let held = phase_king::hold(inbox, self.inbox_layout(), n, t);
        let king = wire::phase(self.state.next);
        phase_king::send_as_king(
            outbox,
            self.outbox_layout(),
            self.state.own,
            king,
            &held.rows,
            n,
        );
        self.open().with_votes(held.rows, held.weak)
    }

    // The matrix after 3p + 3.
    fn settled(self, inbox: &[u8]) -> [u16; 16]
        ensures { result ≡ settled_matrix self.state inbox.now }
    {
        let king = wire::phase(self.state.next - 1);
        let layout = self.inbox_layout();
        phase_king::settle(
            &self.state.matrix,
            &self.state.weak,
            inbox,
            layout,
            self.state.settings.n,
            king,
        )
        .rows
    }

    // After 3p + 3, with another phase to come.
    fn settle_call(self, inbox: &[u8], outbox: &mut [u8]) -> State
        ensures { carried result [] outbox.new ≡ settle_call self.state [] inbox.now outbox.old }
    {
        let rows = self.settled(inbox);
        phase_king::send_matrix(outbox, self.outbox_layout(), &rows, self.state.settings.n);
        self.open().with_matrix(rows)
    }

    // Call 3t + 7.
    fn core_call(self, block: &[u8], inbox: &[u8], outbox: &mut [u8]) -> State
        ensures { carried result block.now outbox.new ≡ core_call self.state block.now inbox.now outbox.old }
    {
        let rows = self.settled(inbox);
        let core = core_of(&rows, self.state.settings.n, self.state.settings.t);
        reconstruction::forward(
            self.state.run,
            self.state.settings,
            self.state.own,
            core,
            block,
            outbox,
        );
        self.open().with_core(rows, core)
    }

    // Call 3t + 8.
    fn choose_call(self, block: &[u8], inbox: &[u8], outbox: &mut [u8]) -> State
        ensures { carried result block.now outbox.new ≡ choose_call self.state block.now inbox.now outbox.old }
    {
        let layout = self.inbox_layout();
        reconstruction::share(
            self.state.settings,
            self.state.own,
            self.state.core,
            inbox,
            layout,
            block,
            outbox,
        );
        self.open()
    }

    // The last call.
    fn finish_call(self, block: &mut [u8], inbox: &[u8]) -> State
        ensures { carried result block.new [] ≡ finish_call self.state block.old inbox.now [] }
    {
        let ending = reconstruction::finish(
            self.state.settings,
            self.inbox_layout(),
            self.state.core,
            inbox,
            block,
        );
        self.advance(ending.outcome).with_named(ending.named)
    }

    // The call that is next, by the kinds as `call_of` has them.
    pub(crate) fn perform(self, block: &mut [u8], inbox: &[u8], outbox: &mut [u8]) -> State
        ensures { carried result block.new outbox.new ≡ call_of (call_kind self.state.settings.t self.state.next) self.state block.old inbox.now outbox.old }
    {
        match wire::call_kind(self.state.settings.t, self.state.next) {
            Call::Send => self.send_call(block, outbox),
            Call::Receive => self.receive_call(block, inbox, outbox),
            Call::Compare => self.compare_call(block, inbox, outbox),
            Call::Collect => self.collect_call(inbox, outbox),
            Call::Tally => self.tally_call(inbox, outbox),
            Call::Hold => self.hold_call(inbox, outbox),
            Call::Settle => self.settle_call(inbox, outbox),
            Call::Core => self.core_call(block, inbox, outbox),
            Call::Choose => self.choose_call(block, inbox, outbox),
            Call::Finish => self.finish_call(block, inbox),
            Call::Outside => self.state,
        }
    }
}
