// Cross stitch on a grid that all badges share: bounds, cells, and rows of half-crosses out and back. Every f64 goes in, NaN and infinities too.
#![tactic(auto)]

mod badge;
mod cells;
mod counting;
mod grid;
mod writing;

pub use badge::Badge;
pub use counting::count;
pub use grid::{bounds, grid_of};
pub use writing::write;
