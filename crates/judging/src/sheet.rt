use crate::answer::{State, Verdict};

/// The states of the limit states of a case, and the verdict on it.
#[derive(Clone, Copy)]
pub struct Sheet {
    pub thrust: State,
    pub net_tension: State,
    pub combined: State,
    pub deflection: State,
    pub buckling: State,
    pub flexibility: State,
    pub buoyancy: State,
    pub verdict: Verdict,
}
