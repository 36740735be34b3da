//! Tests of cases, figures' numbers, claims, sheets and marks, at their edges.
#![tactic(auto)]

#[cfg(test)]
mod cases;
#[cfg(test)]
mod claims;
#[cfg(test)]
mod sample;
#[cfg(test)]
mod sheets;
