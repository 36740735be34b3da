//! A sitting: a book that is only read, with the tallies of the marks written since it was opened.
#![tactic(auto)]

mod cases;
mod claims;
mod sitting;

pub use sitting::Sitting;
