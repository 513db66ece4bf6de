// The refusals of start and step (document 01, 'Turned down').
ghost use Rattle.std.specs.Prelude.{◌≡◌};
ghost use Rattle.settings.specs.Number.{number_of};
ghost use Rattle.settings.specs.Valid.{Valid};
ghost use Rattle.protocol.specs.Step.{start_refusal, lengths_fit, step_refusal};

use protocol::State;
use settings::{Entry, Refusal, Settings};

// Ok, or the row by which a start is refused.
pub fn start_refusal(s: Settings, own: usize, b: usize) -> Result<(), Refusal>
    ensures { number_of result ≡ start_refusal s own b }
{
    let fits = b == wire::block_length(s.n, s.t, s.k);
    settings::check(Entry::Start, s, own, fits)
}

// Whether the lent lengths are those of the next call.
fn lengths_fit(s: State, b: usize, i: usize, o: usize) -> bool
    requires { Valid s.settings s.own }
    ensures { result ≡ lengths_fit s b i o }
{
    let Settings { n, t, k, .. } = s.settings;
    b == wire::block_length(n, t, k)
        && i == wire::inbox_length(n, t, k, s.next)
        && o == wire::outbox_length(n, t, k, s.next)
}

// Ok, or the row by which a step is refused: 7, 8, 6 are tried in this order.
pub fn step_refusal(s: State, b: usize, i: usize, o: usize) -> Result<(), Refusal>
    ensures { number_of result ≡ step_refusal s b i o }
{
    if settings::state_refusal(s.settings, s.own).is_err() {
        return Err(Refusal::State);
    }
    let finished = 3 * s.settings.t + 10;
    if s.next < 1 || finished < s.next {
        return Err(Refusal::State);
    }
    if s.next == finished {
        return Err(Refusal::Finished);
    }
    if !lengths_fit(s, b, i, o) {
        return Err(Refusal::Length);
    }
    Ok(())
}
