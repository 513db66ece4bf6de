// The state of a controller, what is changed in it, and what start and step answer where they refuse (document 01, 'The house'; document 02, U1 and U11).
// The definitions of every call, of start and of step are in specs/.
#![tactic(auto)]

ghost use Rattle.std.specs.Prelude.{◌≡◌};
ghost use Rattle.protocol.specs.State.{initial, zero_state, with_call, with_matrix, with_votes, with_core, with_named};

use reconstruction::Outcome;
use settings::{Refusal, Settings};

// The settings, the own number, the run number, the number of the next call, the outcome, the matrix of the vote with the bits whose count was low, the core, and
// the marks of those whom the controller names. The block is lent beside it. The two matrices stand side by side, as the definitions and the bytes of a state
// have them.
#[derive(Clone, Copy, PartialEq, Eq)]
pub struct State {
    pub settings: Settings,
    pub own: usize,
    pub run: u16,
    pub next: usize,
    pub outcome: Outcome,
    pub matrix: [u16; 16],
    pub weak: [u16; 16],
    pub core: u16,
    pub named: u16,
}

// What start and step answer where they refuse: why, and the state, which is the zero state of a start and the given one of a step.
#[derive(Clone, Copy)]
pub struct Refused {
    pub refusal: Refusal,
    pub state: State,
}

// A state with the outcome open, no matrix or core, and nobody named.
// Shut out: the own number for the next call; run 0, whatever is given; a core of controller 1; controller 1 named.
pub fn initial(settings: Settings, own: usize, run: u16, next: usize) -> State
    ensures { result ≡ initial settings own run next }
{
    State {
        settings,
        own,
        run,
        next,
        outcome: Outcome::Open,
        matrix: [0u16; 16],
        weak: [0u16; 16],
        core: 0,
        named: 0,
    }
}

// The zero state.
// Shut out: next call 1; sender 1; run 1.
pub fn zero_state() -> State
    ensures { result ≡ zero_state }
{
    let none = Settings {
        n: 0,
        t: 0,
        k: 0,
        sender: 0,
    };
    initial(none, 0, 0, 0)
}

impl State {
    // The state with another next call and outcome, and nobody named, whoever was.
    // Shut out: the next call as it was; the weak bits for the matrix; another run number; must-fail/named_kept.
    pub fn with_call(self, next: usize, outcome: Outcome) -> State
        ensures { result ≡ with_call self next outcome }
    {
        State {
            next,
            outcome,
            named: 0,
            ..self
        }
    }

    // With another matrix.
    // Shut out: a matrix of zeros; the weak bits changed in its place.
    pub fn with_matrix(self, matrix: [u16; 16]) -> State
        ensures { result ≡ with_matrix self matrix }
    {
        State { matrix, ..self }
    }

    // With another matrix, and the bits of it whose count was low.
    // Shut out: the matrix for the weak bits; the two the other way round.
    pub fn with_votes(self, matrix: [u16; 16], weak: [u16; 16]) -> State
        ensures { result ≡ with_votes self matrix weak }
    {
        State {
            matrix,
            weak,
            ..self
        }
    }

    // With another matrix and core.
    // Shut out: no core; the weak bits changed in the place of the matrix.
    pub fn with_core(self, matrix: [u16; 16], core: u16) -> State
        ensures { result ≡ with_core self matrix core }
    {
        State {
            matrix,
            core,
            ..self
        }
    }

    // With the marks of those named.
    // Shut out: nobody named; the core changed in the place of the marks.
    pub fn with_named(self, named: u16) -> State
        ensures { result ≡ with_named self named }
    {
        State { named, ..self }
    }
}
