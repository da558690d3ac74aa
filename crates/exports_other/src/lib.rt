// The C entries of borders, patterns, machine files, mending and the sheet book, as those of `exports`.
#![tactic(auto)]

pub mod border;
pub mod machine;
pub mod mending;
pub mod pattern;
pub mod sheets;
