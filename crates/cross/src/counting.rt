// How many rows of stitches a badge has, and how many points.
ghost use Rattle.std.specs.Prelude.{◌≡◌, ◌*◌, ◌≤◌};
ghost use Rattle.geom.specs.Rings.{rings_of};
ghost use Rattle.patterns_rules.specs.Patterns.{row_lines, stitched};
ghost use Rattle.patterns_rules.specs.Answers.{count_of};

use crate::badge::Badge;
use crate::cells::{Row, SIDES, row_sides};
use patterns_rules::Count;

// Of a row of cells.
fn count_runs(row: Row) -> Count
    ensures { (result ≡ count_of (row_lines (rings_of row.entry.badge.outline) row.entry.badge.rule row.entry.badge.grid row.entry.y)) × (result.lines ≤ 4096) × (result.points ≤ 4 * 4096) }
{
    let mut s = 0;
    let mut at = 0;
    let mut i = 0;
    // kept (3): no plainer: the next run is looked for where the last one ends, so an iterator would be this cursor in a struct
    while let Some(run) = row.next_run(i) {
        s += 1;
        at += 4 * run.many;
        i = run.first + run.many;
    }
    Count {
        lines: s,
        points: at,
    }
}

// Of the row of cells at y.
fn count_row(badge: Badge, y: f64) -> Count
    ensures { (result ≡ count_of (row_lines (rings_of badge.entry.outline) badge.entry.rule badge.entry.grid y)) × (result.lines ≤ 4096) × (result.points ≤ 4 * 4096) }
{
    let mut sides = [0.0f64; SIDES];
    let size = row_sides(badge, &mut sides, y);
    count_runs(Row {
        badge,
        y,
        sides: &sides,
        size,
    })
}

// Of all rows.
pub fn count(badge: Badge) -> Count
    ensures { result ≡ count_of (stitched (rings_of badge.entry.outline) badge.entry.rule badge.entry.grid) }
{
    let mut s = 0;
    let mut at = 0;
    for r in 0..badge.grid.rows {
        let c = count_row(badge, badge.y_at(r));
        s += c.lines;
        at += c.points;
    }
    Count {
        lines: s,
        points: at,
    }
}
