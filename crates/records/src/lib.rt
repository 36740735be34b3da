//! The five records of a book, lawful by construction, and why the console refuses.
#![tactic(auto)]

mod curve;
mod fault;
mod fields;
mod grid;
mod point;
mod section;
mod short_list;
mod site;

pub use curve::{Curve, CurveKind, EmbedmentCurve, ShapeCurve, curve_complete};
pub use fault::{Cause, Fault};
pub use grid::{SupportGrid, grid_complete};
pub use point::Point;
pub use section::Section;
pub use site::{LiveLoad, Site};
