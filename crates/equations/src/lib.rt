//! The equations of a buried pipe in exact fractions, from its records to the sides of its limit states: definitions, and what holds of them.
#![tactic(auto)]

ghost use Rattle.equations.specs.Regrouped.{AllRegroup, ArchingLaw};
ghost use Rattle.equations.specs.Tabulated.{Tabulated};

mod figure;
mod limit_state;

pub use figure::Figure;
pub use limit_state::LimitState;

/// The forms that a computation takes are the equations' own numbers and decisions.
pub fn forms_are_the_equations()
    ensures { AllRegroup }
{}

/// The arching factor, times SH + 2.92, and 0.71 SH make up 0.76 (SH + 2.92) and 0.71 times 1.17, be SH below 1.17 or above it.
pub fn arching_solves_its_equation()
    ensures { ArchingLaw }
{}

/// The values worked by hand.
pub fn tabulated_values_hold()
    ensures { Tabulated }
{}
