// The number leaves: document 01's module 1. Every f64 goes in, NaN and infinities too, and each contract is an
// equation over the kit's account of IEEE 754. `checked` has the same with document 01's refusal in front.
#![tactic(auto)]

pub mod bits;
pub mod cast;
pub mod checked;
pub mod digits;
pub mod order;
pub mod quick;
pub mod whole;

pub use bits::{of_bits, to_bits};
pub use cast::{of_i64, of_u64, to_i64, to_u64};
pub use digits::root;
pub use order::{before, is_finite, is_negative, larger, magnitude, smaller};
pub use whole::{ceil, floor, nearest};
