ghost use Rattle.std.specs.Prelude.{◌≡◌};
ghost use Rattle.judging.specs.Answers.{state_number, state_of, mark_number};

use enclosure::Comparison;
use equations::LimitState;

/// How a limit state stands.
#[derive(Clone, Copy, PartialEq, Eq, Debug)]
pub enum State {
    Holds = 1,
    Fails = 2,
    Undecided = 3,
    /// It asks nothing of this case.
    NotApplied = 4,
}

impl State {
    /// The number of the state.
    pub fn number(self) -> u8
        ensures { result ≡ state_number self }
    {
        self as u8
    }
}

/// How a limit state stands by what comparing its sides answers.
impl From<Comparison> for State {
    ghost from_gives = { λ comparison state. state ≡ state_of comparison };

    fn from(comparison: Comparison) -> Self {
        match comparison {
            Comparison::Yes => State::Holds,
            Comparison::No => State::Fails,
            Comparison::Unknown => State::Undecided,
        }
    }
}

/// What becomes of a case.
#[derive(Clone, Copy, PartialEq, Eq, Debug)]
pub enum Verdict {
    Accepted,
    /// The first limit state that fails.
    Rejected(LimitState),
    Undecided,
}

/// What a claim earns.
// An Option<bool> has this shape, but would not say which of its three values is which.
#[derive(Clone, Copy, PartialEq, Eq, Debug)]
pub enum Mark {
    Right = 1,
    Wrong = 2,
    Unmarked = 3,
}

impl Mark {
    /// The number of the mark.
    pub fn number(self) -> u8
        ensures { result ≡ mark_number self }
    {
        self as u8
    }
}
