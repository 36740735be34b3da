use crate::answer::Mark;

/// A claim: what a figure is said to be, in millionths, and beside it the mark that it earns.
#[derive(Clone, Copy)]
pub struct Claim {
    /// The number of the figure. A number, and no Figure: a claim on none stays as it is.
    pub figure: u64,
    pub value: u64,
    pub mark: Option<Mark>,
}
