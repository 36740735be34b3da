//! Judging and marking a case, in every enclosure arithmetic.
#![tactic(auto)]

mod answer;
mod claim;
mod claimed;
mod limits;
mod marking;
mod sheet;
mod sides;
mod verdicts;
mod worked_case;

pub use answer::{Mark, State, Verdict};
pub use claim::Claim;
pub use claimed::Claimed;
pub use equations::{Figure, LimitState};
pub use limits::judge;
pub use marking::{figure, mark, mark_all};
pub use sheet::Sheet;
