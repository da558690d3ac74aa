// The cells of a row whose centres are inside, run by run. The sides that cross the height of the centres are gathered once a row.
ghost use Rattle.std.specs.Prelude.{◌≡◌, ◌≤◌, ◌<◌, [], MatchOption};
ghost use Rattle.numbers.specs.Num.{◌⊕◌, ◌⊗◌, half};
ghost use Rattle.geom.specs.Rings.{rings_of};
ghost use Rattle.outlines.specs.Sides.{Gathered};
ghost use Rattle.patterns_rules.specs.Patterns.{cell_inside};
ghost use Rattle.cross.specs.Cells.{Scan, NextRun, runs_in};
ghost use Rattle.cross.specs.CellsLaws.{gathered_prop};

use crate::badge::Badge;
use geom::P;
use outlines::sides::{gather, point_inside_at};
use patterns_rules::Run;

// Room for 64 sides; a row that has more goes by the outline.
pub const SIDES: usize = 256;

// The row of cells at y, with the sides across the centres in the first numbers of a slice, if it has so many.
#[derive(Clone, Copy)]
pub struct Row<'a> {
    pub badge: Badge<'a>,
    pub y: f64,
    pub sides: &'a [f64],
    pub size: usize,
    ghost across: { Gathered (rings_of badge.outline) (y ⊕ badge.grid.cell ⊗ half) size sides.now } by { gathered_prop (rings_of badge.outline) (y ⊕ badge.grid.cell ⊗ half) size sides.now },
}

// The sides across the centres of the row at y. For one or two cells that costs more than it saves: those go by the outline.
pub fn row_sides(badge: Badge, sides: &mut [f64], y: f64) -> usize
    ensures { Gathered (rings_of badge.entry.outline) (y ⊕ badge.entry.grid.cell ⊗ half) result sides.new }
{
    if badge.grid.columns < 3 {
        return sides.len() + 1;
    }
    gather(badge.outline, y + badge.grid.cell * 0.5, sides)
}

impl<'a> Row<'a> {
    // Whether the centre of cell i is inside.
    fn has(self, i: usize) -> bool
        requires { i < self.badge.grid.columns }
        ensures { result ≡ cell_inside (rings_of self.entry.badge.outline) self.entry.badge.rule self.entry.badge.grid self.entry.y i }
    {
        let half = self.badge.grid.cell * 0.5;
        let p = P {
            x: self.badge.x_at(i) + half,
            y: self.y + half,
        };
        point_inside_at(
            self.badge.outline,
            self.sides,
            self.size,
            self.badge.rule,
            p,
        )
    }

    // The first cell from i on that is inside, or that isn't.
    fn first(self, i: usize, inside: bool) -> usize
        requires { i ≤ self.badge.grid.columns }
        ensures { Scan (cell_inside (rings_of self.entry.badge.outline) self.entry.badge.rule self.entry.badge.grid self.entry.y) self.entry.badge.grid.columns inside i result }
    {
        for j in i..self.badge.grid.columns {
            if self.has(j) == inside {
                return j;
            }
        }
        self.badge.grid.columns
    }

    // The next run from i on.
    pub fn next_run(self, i: usize) -> Option<Run>
        requires { i ≤ self.badge.grid.columns }
        ensures { MatchOption result (runs_in (cell_inside (rings_of self.entry.badge.outline) self.entry.badge.rule self.entry.badge.grid self.entry.y) self.entry.badge.grid.columns i ≡ []) (λ r. NextRun (cell_inside (rings_of self.entry.badge.outline) self.entry.badge.rule self.entry.badge.grid self.entry.y) self.entry.badge.grid.columns i r) }
    {
        let first = self.first(i, true);
        if first == self.badge.grid.columns {
            return None;
        }
        let end = self.first(first + 1, false);
        Some(Run {
            first,
            many: end - first,
        })
    }
}
