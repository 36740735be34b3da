//! The calls of an examination, and their answers.
#![tactic(auto)]

mod answer;
mod call;

pub use answer::{Answer, Tallies, Turn};
pub use call::{Call, CasePlaces, Reading};
