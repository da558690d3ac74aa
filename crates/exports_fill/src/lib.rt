// The C entries of the fills, as those of `exports`.
#![tactic(auto)]

pub mod bench;
pub mod beneath;
pub mod fill;
