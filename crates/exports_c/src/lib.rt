// The C entries themselves: a crate is a library or a static library, so each function of `exports`, `exports_fill` and `exports_other` is called here from one
// that C can name, under the same name and with the same clauses.
#![tactic(auto)]

pub mod bench;
pub mod beneath;
pub mod border;
pub mod fill;
pub mod line;
pub mod machine;
pub mod mending;
pub mod number;
pub mod pattern;
pub mod shape;
pub mod sheets;
