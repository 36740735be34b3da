//! Exact lookups on the records' curves and grids.
#![tactic(auto)]

mod axes;
mod cell;
mod curves;
mod operand;
mod supports;
mod table;

pub use curves::{embedment_modulus, shape_factor};
pub use operand::{Modulus, Pressure, Stiffness};
pub use supports::support_factor;
pub use table::tabulated;
