//! Tests of the records' makers and of the lookups: every range at both edges and just outside, the order of the
//! causes, and values by hand.
#![tactic(auto)]

#[cfg(test)]
mod curves;
#[cfg(test)]
mod fixed;
#[cfg(test)]
mod grids;
#[cfg(test)]
mod refusals;
#[cfg(test)]
mod values;
