// The rows of stitches, written.
ghost use Rattle.std.specs.Prelude.{◌≡◌, [], ◌∷◌, reverse, ◌+◌, ◌*◌, ◌≤◌, length};
ghost use Rattle.refusal.specs.Refusal.{DONE};
ghost use Rattle.seqs.specs.Lists.{upto, each};
ghost use Rattle.seqs.specs.Slices.{put};
ghost use Rattle.geom.specs.Rings.{rings_of};
ghost use Rattle.geom.specs.Sewing.{flat};
ghost use Rattle.rules.specs.Calls.{sewn_points, sewn_ends};
ghost use Rattle.patterns_rules.specs.Patterns.{out_over, back_over, out_and_back, row_lines, stitched};
ghost use Rattle.patterns_rules.specs.Answers.{count_of, left_points, left_ends};

use crate::badge::Badge;
use crate::cells::{Row, SIDES, row_sides};
use geom::P;
use geom::sewing::put_point;
use patterns_rules::{Count, Run};

// Two points from k on.
fn put_stitch(out: &mut [f64], k: usize, p: P, q: P)
    requires { k + 4 ≤ length out.old }
    ensures { out.new ≡ put out.old k (flat (p ∷ q ∷ [])) }
{
    put_point(out, k, p);
    put_point(out, k + 2, q);
}

// Out: bottom left to top right of each cell.
fn put_out(out: &mut [f64], k: usize, badge: Badge, y: f64, run: Run)
    requires { (run.first + run.many ≤ badge.grid.columns) × (k + 4 * run.many ≤ length out.old) }
    ensures { out.new ≡ put out.old k (flat (each (out_over badge.entry.grid y) (upto run.first run.many))) }
{
    let cell = badge.grid.cell;
    for t in 0..run.many {
        let x = badge.x_at(run.first + t);
        let p = P { x, y: y + cell };
        let q = P { x: x + cell, y };
        put_stitch(out, k + 4 * t, p, q);
    }
}

// Back: bottom right to top left, from the last cell to the first.
fn put_back(out: &mut [f64], k: usize, badge: Badge, y: f64, run: Run)
    requires { (run.first + run.many ≤ badge.grid.columns) × (k + 4 * run.many ≤ length out.old) }
    ensures { out.new ≡ put out.old k (flat (each (back_over badge.entry.grid y) (reverse (upto run.first run.many)))) }
{
    let cell = badge.grid.cell;
    for t in 0..run.many {
        let x = badge.x_at(run.first + (run.many - 1 - t));
        let p = P {
            x: x + cell,
            y: y + cell,
        };
        put_stitch(out, k + 4 * t, p, P { x, y });
    }
}

// A run shares one out-and-back row.
fn put_run(out: &mut [f64], k: usize, badge: Badge, y: f64, run: Run)
    requires { (run.first + run.many ≤ badge.grid.columns) × (k + 8 * run.many ≤ length out.old) }
    ensures { out.new ≡ put out.old k (flat (out_and_back badge.entry.grid y run)) }
{
    put_out(out, k, badge, y, run);
    put_back(out, k + 4 * run.many, badge, y, run);
}

// The rows of stitches of a row of cells, after those that are done.
fn put_runs(out: &mut [f64], stops: &mut [usize], done: Count, row: Row) -> Count
    requires { (2 * done.points + length (flat (sewn_points (row_lines (rings_of row.badge.outline) row.badge.rule row.badge.grid row.y))) ≤ length out.old) × (done.lines + length (row_lines (rings_of row.badge.outline) row.badge.rule row.badge.grid row.y) ≤ length stops.old) }
    ensures { (out.new ≡ put out.old (2 * done.points) (flat (sewn_points (row_lines (rings_of row.entry.badge.outline) row.entry.badge.rule row.entry.badge.grid row.entry.y)))) × (stops.new ≡ put stops.old done.lines (sewn_ends done.points (row_lines (rings_of row.entry.badge.outline) row.entry.badge.rule row.entry.badge.grid row.entry.y))) × (result.lines ≡ done.lines + length (row_lines (rings_of row.entry.badge.outline) row.entry.badge.rule row.entry.badge.grid row.entry.y)) × (result.points ≡ done.points + length (sewn_points (row_lines (rings_of row.entry.badge.outline) row.entry.badge.rule row.entry.badge.grid row.entry.y))) }
{
    let mut s = done.lines;
    let mut at = done.points;
    let mut i = 0;
    // kept (3): no plainer: the next run is looked for where the last one ends, so an iterator would be this cursor in a struct
    while let Some(run) = row.next_run(i) {
        put_run(out, 2 * at, row.badge, row.y, run);
        at += 4 * run.many;
        stops[s] = at;
        s += 1;
        i = run.first + run.many;
    }
    Count {
        lines: s,
        points: at,
    }
}

// Those of the row of cells at y.
fn put_row(out: &mut [f64], stops: &mut [usize], done: Count, badge: Badge, y: f64) -> Count
    requires { (2 * done.points + length (flat (sewn_points (row_lines (rings_of badge.outline) badge.rule badge.grid y))) ≤ length out.old) × (done.lines + length (row_lines (rings_of badge.outline) badge.rule badge.grid y) ≤ length stops.old) }
    ensures { (out.new ≡ put out.old (2 * done.points) (flat (sewn_points (row_lines (rings_of badge.entry.outline) badge.entry.rule badge.entry.grid y)))) × (stops.new ≡ put stops.old done.lines (sewn_ends done.points (row_lines (rings_of badge.entry.outline) badge.entry.rule badge.entry.grid y))) × (result.lines ≡ done.lines + length (row_lines (rings_of badge.entry.outline) badge.entry.rule badge.entry.grid y)) × (result.points ≡ done.points + length (sewn_points (row_lines (rings_of badge.entry.outline) badge.entry.rule badge.entry.grid y))) }
{
    let mut sides = [0.0f64; SIDES];
    let size = row_sides(badge, &mut sides, y);
    let row = Row {
        badge,
        y,
        sides: &sides,
        size,
    };
    put_runs(out, stops, done, row)
}

// All rows to the front of out, and where each ends, in points, to the front of stops; answers how many.
pub fn write(out: &mut [f64], stops: &mut [usize], badge: Badge) -> Count
    requires { (length (flat (sewn_points (stitched (rings_of badge.outline) badge.rule badge.grid))) ≤ length out.old) × (length (stitched (rings_of badge.outline) badge.rule badge.grid) ≤ length stops.old) }
    ensures { (result ≡ count_of (stitched (rings_of badge.entry.outline) badge.entry.rule badge.entry.grid)) × (out.new ≡ left_points DONE (stitched (rings_of badge.entry.outline) badge.entry.rule badge.entry.grid) out.old) × (stops.new ≡ left_ends DONE (stitched (rings_of badge.entry.outline) badge.entry.rule badge.entry.grid) stops.old) }
{
    let mut done = Count {
        lines: 0,
        points: 0,
    };
    for r in 0..badge.grid.rows {
        done = put_row(out, stops, done, badge, badge.y_at(r));
    }
    done
}
