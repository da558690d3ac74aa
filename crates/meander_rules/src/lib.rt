// What a meander is, as definitions: the source's `meander` in specs/Meander.antt. Here are the records that travel by value.
#![tactic(auto)]

ghost use Rattle.std.specs.Prelude.{◌≡◌, ◌<◌};
ghost use Rattle.meander_rules.specs.Meander.{place};

use geom::P;
use leaves::of_u64;
use outlines::Area;

// The grid: where its first point stands, how far apart its points are, and how many there are either way; none with no corners.
#[derive(Clone, Copy)]
pub struct Lattice {
    pub left: f64,
    pub top: f64,
    pub spacing: f64,
    pub columns: usize,
    pub rows: usize,
}

impl Lattice {
    // Where grid point k stands.
    pub fn place(self, k: usize) -> P
        requires { 0 < self.columns }
        ensures { result ≡ place self k }
    {
        P {
            x: self.left + of_u64((k % self.columns) as u64) * self.spacing,
            y: self.top + of_u64((k / self.columns) as u64) * self.spacing,
        }
    }
}

// An area, and the grid over it, which has a point.
#[derive(Clone, Copy)]
pub struct Ground<'a> {
    pub area: Area<'a>,
    pub grid: Lattice,
    ghost some: { 0 < grid.columns },
}
