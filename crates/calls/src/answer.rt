use crate::call::Call;
use judging::Sheet;
use records::Fault;

/// How many claims were marked right, wrong, and left unmarked.
#[derive(Clone, Copy, PartialEq, Eq, Debug, Default)]
pub struct Tallies {
    pub right: u64,
    pub wrong: u64,
    pub unmarked: u64,
}

/// What a call is answered.
#[derive(Clone, Copy)]
pub enum Answer {
    /// An entry, a withdrawal, an opening or a closing is done.
    Done,
    /// The sheet of a case.
    Judged(Sheet),
    /// The whole numbers below and above a figure, in millionths.
    Read(u64, u64),
    /// The claims are marked, each in its place.
    Marked,
    /// The tallies.
    Tallied(Tallies),
    /// The call is refused, and nothing is altered.
    Refused(Fault),
}

/// A call, with the place for its answer.
#[derive(Drop)]
pub struct Turn<R: Drop> {
    pub call: Call<R>,
    pub answer: Option<Answer>,
}
