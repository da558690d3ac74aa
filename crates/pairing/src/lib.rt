// Matched points on both rails: the places along them one after the other, and the pairs in the working slice. For rails of any numbers.
// A place, and a sync point, is a length along rail a (its x) and a length along rail b (its y).
#![tactic(auto)]

pub mod places;
pub mod rails;
pub mod store;

pub use rails::Rails;
