//! The book: numbered places for the five kinds of record.
#![tactic(auto)]

mod book;
mod kind;
mod record;
mod shelf;

pub use book::Book;
pub use kind::{Kind, check_place};
pub use record::{Record, lines_tell_records};
