// The walks of a meander in a lent slice of whole numbers: the random source, the ways on from a grid point, and every walk, one behind the other. Every f64 goes in, NaN and infinities too.
#![tactic(auto)]

pub mod grid;
pub mod random;
pub mod slice;
pub mod walk;
pub mod ways;

// How far a walk is: where the stack's top stands in the slice, how many points all paths have, and the random source.
#[derive(Clone, Copy)]
pub struct Steps {
    pub top: usize,
    pub size: usize,
    pub seed: u64,
}

// How far the walks are: how many there are, how many points all their paths have, and the random source.
#[derive(Clone, Copy)]
pub struct Round {
    pub walks: usize,
    pub size: usize,
    pub seed: u64,
}
