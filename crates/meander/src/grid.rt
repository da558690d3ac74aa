// The grid over an outline, its counts stopped past 400,000.
ghost use Rattle.std.specs.Prelude.{◌≡◌, ◌≤◌};
ghost use Rattle.seqs.specs.Slices.{capped};
ghost use Rattle.geom.specs.Outline.{points};
ghost use Rattle.cross.specs.Cells.{bounds_of};
ghost use Rattle.meander_rules.specs.Meander.{most_points, points_over, lattice_in};
ghost use Rattle.meander.specs.Stopped.{stopped};

use cross::bounds;
use leaves::{ceil, is_finite, to_u64};
use meander_rules::Lattice;

// How many points from lo to hi, or 400,001 where there are more than 400,000.
fn points_over(lo: f64, hi: f64, spacing: f64) -> usize
    ensures { result ≡ capped most_points (points_over lo hi spacing) }
{
    let c = to_u64(ceil((hi - lo) / spacing));
    if c < 400000 {
        return c as usize + 1;
    }
    400001
}

pub fn lattice_of(corners: &[f64], spacing: f64) -> Lattice
    ensures { result ≡ stopped (lattice_in (bounds_of (points corners.now)) spacing) }
{
    let b = bounds(corners);
    if is_finite(b.left) {
        let columns = points_over(b.left, b.right, spacing);
        let rows = points_over(b.top, b.bottom, spacing);
        return Lattice {
            left: b.left,
            top: b.top,
            spacing,
            columns,
            rows,
        };
    }
    Lattice {
        left: b.left,
        top: b.top,
        spacing,
        columns: 0,
        rows: 0,
    }
}
