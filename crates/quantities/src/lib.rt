//! The quantities of a case, in every enclosure arithmetic: each known to be near its definition.
#![tactic(auto)]

mod bend;
mod case;
mod cover;
mod formulas;
mod loads;
mod measured;
mod measures;
mod soils;
mod work;
mod worked;

pub use case::Case;
pub use formulas::{cube, parts, square};
pub use measures::Measures;
pub use worked::Worked;
