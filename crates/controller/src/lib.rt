// One controller's part in the broadcast of a block: start, then a step for each call (document 01, 'The house', 'Rounds', 'Turned down').
// The state goes in and comes back by value; the block, the inbox and the outbox are lent. What each call does is its definition in the
// crate protocol; here the calls are put together from the layers below.
#![tactic(auto)]

mod calls;
mod refusal;

ghost use Rattle.std.specs.Prelude.{◌≡◌, length};
ghost use Rattle.protocol.specs.Step.{answered, start_of, after, step_of};

use calls::Pending;
use protocol::{Refused, State, initial, zero_state};
use refusal::{start_refusal, step_refusal};
use settings::Settings;

// Begins the run with the number `run`; the block is neither read nor changed. Refused: the zero state.
// Shut out: a start carried out that answers row 1; a refused one whose state has a next call; run 0, whatever is given.
pub fn start(s: Settings, own: usize, run: u16, block: &[u8]) -> Result<State, Refused>
    ensures { answered result ≡ start_of s own run (length block.now) }
{
    match start_refusal(s, own, block.len()) {
        Ok(()) => Ok(initial(s, own, run, 1)),
        Err(refusal) => Err(Refused {
            refusal,
            state: zero_state(),
        }),
    }
}

// One step. Refused: the state comes back as given, and no lent byte changes.
// Shut out: a refused step that answers Ok; row 7 after the last call; must-fail/none_while_open; must-fail/always_refusing.
pub fn step(s: State, block: &mut [u8], inbox: &[u8], outbox: &mut [u8]) -> Result<State, Refused>
    ensures { after (answered result) block.new outbox.new ≡ step_of s block.old inbox.now outbox.old }
{
    match step_refusal(s, block.len(), inbox.len(), outbox.len()) {
        Ok(()) => Ok(Pending { state: s }.perform(block, inbox, outbox)),
        Err(refusal) => Err(Refused { refusal, state: s }),
    }
}
