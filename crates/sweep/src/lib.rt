// The sweep over the rows, down or up: the pieces of all rows, in the order met. Only the order in which places wait asks for ends that are numbers; all else takes every f64, NaN and infinities too.
#![tactic(auto)]

pub mod active;
pub mod key;
pub mod piece;
pub mod row;
pub mod rows;
pub mod waiting;

pub use rows::sweep;
