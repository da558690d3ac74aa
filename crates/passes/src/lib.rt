// The passes of a column from the pairs that stand in the working slice: underlay points, and the top's stitches.
#![tactic(auto)]

pub mod threads;
pub mod top;
