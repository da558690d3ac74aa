// An outline with its fill rule, and its cells: at most 4,096 either way, all of whose columns and rows have numbers.
ghost use Rattle.std.specs.Prelude.{◌≡◌, ◌<◌};
ghost use Rattle.patterns_rules.specs.Patterns.{x_at, y_at};
ghost use Rattle.cross.specs.Cells.{Laid};
ghost use Rattle.cross.specs.CellsLaws.{laid_prop};

use geom::Outline;
use leaves::of_i64;
use outlines::FillRule;
use patterns_rules::Grid;

#[derive(Clone, Copy)]
pub struct Badge<'a> {
    pub outline: Outline<'a>,
    pub rule: FillRule,
    pub grid: Grid,
    ghost laid: { Laid grid } by { laid_prop grid },
}

impl<'a> Badge<'a> {
    // The left side of column i.
    pub fn x_at(self, i: usize) -> f64
        requires { i < self.grid.columns }
        ensures { result ≡ x_at self.entry.grid i }
    {
        of_i64(self.grid.left + (i as i64)) * self.grid.cell
    }

    // The upper side of row r.
    pub fn y_at(self, r: usize) -> f64
        requires { r < self.grid.rows }
        ensures { result ≡ y_at self.entry.grid r }
    {
        of_i64(self.grid.top + (r as i64)) * self.grid.cell
    }
}
