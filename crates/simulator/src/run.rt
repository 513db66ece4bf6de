// The run of a system: the calls of all controllers one after the other, and what each of them holds.
ghost use Rattle.std.specs.Prelude.{◌≡◌, List, ℕ, [], ◌+◌, ◌*◌, ◌≤◌, ◌<◌, get_or, length, replicate, take};
ghost use Rattle.protocol.specs.Step.{answered, step_of};
ghost use Rattle.simulation.specs.Run.{began};
ghost use Rattle.simulator.specs.Play.{Playable, block_in, given};
ghost use Rattle.simulator.specs.Steps.{Called, AfterCalls, inbox_in, outbox_in, scene, taken, held, stepped, now_of};

use crate::RUN;
use protocol::{Refused, State};
use settings::Settings;
use system_file::SystemFile;

// What a controller holds from call to call. Its block stands at the front of its array, whose memory is fixed; the settings say how long it is.
#[derive(Clone, Copy)]
pub(crate) struct Controller {
    pub state: State,
    pub block: [u8; 192],
}

// An outbox stands at the front of its array too. The outboxes of all stand apart from what a controller holds: a call reads what all sent, and writes what
// one sends next.
pub(crate) type Outbox = [u8; 3120];

pub(crate) type Outboxes = [Outbox; 16];

// What is played: the bytes of a file, and what they say. A call's number, a controller's and what all hold stay parameters, as `called` has them.
#[derive(Clone, Copy)]
pub(crate) struct Script<'a> {
    pub input: &'a [u8],
    pub file: &'a SystemFile,
    ghost playable: { Playable input.now file.now },
}

// The state that start or a step returns, refused or not.
fn state_of(answer: Result<State, Refused>) -> State
    ensures { result ≡ (answered answer).state }
{
    match answer {
        Ok(state) => state,
        Err(refused) => refused.state,
    }
}

// A step of a controller whose block has b bytes. The outbox is cleared first. How long the block is at most is asked where its array is cut.
fn step(before: Controller, b: usize, inbox: &[u8], outbox: &mut [u8]) -> Controller
    requires { b ≤ 192 }
    ensures { held result b outbox.new ≡ taken (step_of before.state (take b before.block) inbox.now (replicate (length outbox.old) 0)) }
{
    let mut block = before.block;
    let lent = &mut block[..b];
    wire::silence(outbox);
    let answer = controller::step(before.state, lent, inbox, outbox);
    Controller {
        state: state_of(answer),
        block,
    }
}

// Copies the first o bytes of an outbox.
fn copy_front(from: &Outbox, o: usize, to: &mut Outbox)
    requires { o ≤ 3120 }
    ensures { take o to.new ≡ take o from.now }
{
    to[..o].copy_from_slice(&from[..o]);
}

// Copies what the first n send, o bytes each.
fn deliver(n: usize, o: usize, sending: &Outboxes, sent: &mut Outboxes)
    requires { (n ≤ 16) × (o ≤ 3120) }
    ensures { (x : ℕ) → x < n → take o (get_or sent.new x []) ≡ take o (get_or sending.now x []) }
{
    for i in 0..n {
        copy_front(&sending[i], o, &mut sent[i]);
    }
}

impl Script<'_> {
    // Controller i after its start.
    fn start(&self, i: usize) -> Controller
        ensures { held result (block_in self.now.file.now.settings) [] ≡ began (scene self.now.input.now self.now.file.now (given self.now.file.now)) i }
    {
        let settings = self.file.settings;
        let block = self.file.block;
        let b = wire::block_length(settings.n, settings.t, settings.k);
        let answer = controller::start(settings, i, RUN, &block[..b]);
        Controller {
            state: state_of(answer),
            block,
        }
    }

    // Call c + 1 of the controller of index i, which holds `before`; what all sent in call c is in `sent`. The front of `outbox` is what it sends.
    fn call(
        &self,
        c: usize,
        i: usize,
        before: Controller,
        sent: &Outboxes,
        outbox: &mut Outbox,
    ) -> Controller
        requires { (c ≤ 3 * self.now.file.now.settings.t + 8) × (i < self.now.file.now.settings.n) }
        ensures { held result (block_in self.now.file.now.settings) (take (outbox_in self.now.file.now.settings (c + 1)) outbox.new) ≡ stepped (scene self.now.input.now self.now.file.now []) c before sent.now (i + 1) }
    {
        let Settings { n, t, k, .. } = self.file.settings;
        let mut space = [0u8; 3120];
        let size = wire::inbox_length(n, t, k, c + 1);
        let inbox = &mut space[..size];
        self.make_inbox(c, i + 1, sent, inbox);
        let b = wire::block_length(n, t, k);
        let o = wire::outbox_length(n, t, k, c + 1);
        step(before, b, inbox, &mut outbox[..o])
    }

    // Call c + 1 of each correct controller: what all sent in call c is in `sent`, what they send goes to `sending`.
    fn call_all(
        &self,
        c: usize,
        controllers: &mut [Controller; 16],
        sent: &Outboxes,
        sending: &mut Outboxes,
    )
        requires { c ≤ 3 * self.now.file.now.settings.t + 8 }
        ensures { Called (scene self.now.input.now self.now.file.now []) c (now_of controllers.old sent.now self.now.file.now.settings (inbox_in self.now.file.now.settings c)) (now_of controllers.new sending.new self.now.file.now.settings (outbox_in self.now.file.now.settings (c + 1))) }
    {
        for i in 0..self.file.settings.n {
            if !bitset::member(self.file.faulty, i) {
                controllers[i] = self.call(c, i, controllers[i], sent, &mut sending[i]);
            }
        }
    }

    // What each holds after its start, whatever stands for what was sent.
    fn start_all(&self) -> [Controller; 16]
        ensures { (sent : List (List ℕ)) → AfterCalls (scene self.now.input.now self.now.file.now (given self.now.file.now)) 0 result sent (inbox_in self.now.file.now.settings 0) }
    {
        let mut all = [self.start(1); 16];
        for i in 1..self.file.settings.n {
            all[i] = self.start(i + 1);
        }
        all
    }

    // What each holds after the last call, whatever stands for what was sent.
    pub(crate) fn play(&self) -> [Controller; 16]
        ensures { (sent : List (List ℕ)) → AfterCalls (scene self.now.input.now self.now.file.now (given self.now.file.now)) (3 * self.now.file.now.settings.t + 9) result sent (inbox_in self.now.file.now.settings (3 * self.now.file.now.settings.t + 9)) }
    {
        // First, since an array that is made behind a call is cleared twice: at entry, and where it is made.
        let mut sent = [[0u8; 3120]; 16];
        let mut sending = [[0u8; 3120]; 16];
        let Settings { n, t, k, .. } = self.file.settings;
        let mut controllers = self.start_all();
        for c in 0..3 * t + 9 {
            self.call_all(c, &mut controllers, &sent, &mut sending);
            deliver(n, wire::outbox_length(n, t, k, c + 1), &sending, &mut sent);
        }
        controllers
    }
}
