// Thin C entries over the proved library, for the comparison with the Rust and for callers in Rust and C: numbers, points, outlines and lines.
// A slice is a pointer and a length; a rule is 0 for NonZero and any other number for EvenOdd; a truth is 1 or 0.
#![tactic(auto)]

pub mod line;
pub mod number;
pub mod shape;
