// Points, the flat form of lines and outlines, and the steps of a piece: geom.rs. The cores take every f64, NaN and infinities too.
#![tactic(auto)]

pub mod flat;
pub mod outline;
pub mod point;
pub mod sewing;
pub mod steps;

pub use outline::Outline;
pub use point::{P, cross};
