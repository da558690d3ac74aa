// What bounds, clipping and cross stitch are, as definitions: document 01's rules and the source's patterns.rs in
// specs/Patterns.antt. Here are the records that travel by value.
#![tactic(auto)]

ghost use Rattle.std.specs.Prelude.{◌≡◌, ◌<◌, ◌≤◌, ◌/◌, ◌⊎◌, MatchResult};
ghost use Rattle.refusal.specs.declared.Refusal.TheVariants.{Room};

use refusal::Refusal;

// The least box around an outline: the source's `lo` is (left, top), its `hi` is (right, bottom).
#[derive(Clone, Copy)]
pub struct Bounds {
    pub left: f64,
    pub top: f64,
    pub right: f64,
    pub bottom: f64,
}

// The cells of a badge, on a grid that all badges share: its first column and row, and how many there are of each.
#[derive(Clone, Copy)]
pub struct Grid {
    pub cell: f64,
    pub left: i64,
    pub columns: usize,
    pub top: i64,
    pub rows: usize,
}

// Adjacent cells of a row: the first, counted from the grid's first column, and how many.
#[derive(Clone, Copy)]
pub struct Run {
    pub first: usize,
    pub many: usize,
}

// Lines, and the points of all of them.
#[derive(Clone, Copy)]
pub struct Count {
    pub lines: usize,
    pub points: usize,
}

impl Count {
    // ROOM, unless slices of so many numbers and so many ends have room for them.
    pub fn fits(self, numbers: usize, ends: usize) -> Result<(), Refusal>
        ensures { MatchResult result (λ u. (self.points ≤ numbers / 2) × (self.lines ≤ ends)) (λ e. (e ≡ Room) × ((numbers / 2 < self.points) ⊎ ((self.points ≤ numbers / 2) × (ends < self.lines)))) }
    {
        if self.points > numbers / 2 || self.lines > ends {
            return Err(Refusal::Room);
        }
        Ok(())
    }
}
