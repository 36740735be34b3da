ghost use Rattle.std.specs.Prelude.{◌≡◌};
ghost use Rattle.judging.specs.Answers.{verdict_of};

use crate::answer::{State, Verdict};
use equations::LimitState;

/// Rejected naming the first limit state that fails, else undecided if one is, else accepted.
pub(crate) fn verdict(states: &[(LimitState, State)]) -> Verdict
    ensures { result ≡ verdict_of states.now }
{
    if let Some((limit, _)) = states.iter().find(|(_, state)| *state == State::Fails) {
        return Verdict::Rejected(*limit);
    }
    if states.iter().any(|(_, state)| *state == State::Undecided) {
        return Verdict::Undecided;
    }
    Verdict::Accepted
}
