// Outlines: the fill rule, the winding of rings about a point, and what is inside (geom.rs). The cores take every f64.
#![tactic(auto)]

pub mod area;
pub mod heights;
pub mod rule;
pub mod sides;
pub mod winding;

pub use area::Area;
pub use rule::FillRule;
