// Everything of the program `fill` but the fill: a job read from its bytes, and the lines that are printed.
#![tactic(auto)]

mod frame;
pub mod job;
pub mod job2;
mod line;
mod lines;
pub mod number;
mod rings;

pub use job::{Job, parse};
pub use job2::{Second, parse2};
pub use lines::listing;
