// The kept edges of an outline: the table that the sweep reads, and the rows that they span. Every f64 goes in, NaN and infinities too.
#![tactic(auto)]

pub mod rows;
pub mod side;
pub mod sides;
pub mod table;

pub use rows::{Rows, row_at, row_number, rows_of};
pub use sides::Sides;
pub use table::{Table, build};
