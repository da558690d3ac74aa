// The meander on a grid: the points are marked, the walks made, and the lines along them sewn.
ghost use Rattle.std.specs.Prelude.{◌≡◌, ◌*◌, ◌≤◌, length, replicate};
ghost use Rattle.seqs.specs.Lists.{each};
ghost use Rattle.geom.specs.Rings.{rings_of};
ghost use Rattle.patterns_rules.specs.Answers.{said_count, LinesSewn};
ghost use Rattle.meander_rules.specs.Meander.{points_of, most_points, lines_along, meander_on};
ghost use Rattle.wander.specs.Walking.{walks_in, Between};
ghost use Rattle.meander.specs.StoppedLaws.{Said};

use geom::Outline;
use meander_rules::{Ground, Lattice};
use outlines::heights::{HEIGHTS, heights};
use outlines::{Area, FillRule};
use patterns_rules::Count;
use refusal::{Refusal, unless};
use trail::{Paths, lines_along};
use wander::Round;
use wander::grid::mark;
use wander::random::first_seed;
use wander::walk::walks;

// The lines along the paths that w holds.
fn sew_paths(
    w: &[usize],
    t: Round,
    ground: Ground,
    len: f64,
    out: &mut [f64],
    stops: &mut [usize],
) -> Result<Count, Refusal>
    requires { Between (points_of ground.grid) w.now t }
    ensures { LinesSewn (each (lines_along (rings_of ground.entry.area.outline) ground.entry.area.rule ground.entry.grid len) (walks_in (points_of ground.entry.grid) w.now t).paths) result out.old out.new stops.old stops.new }
{
    let n = ground.grid.columns * ground.grid.rows;
    let a = 2 * n;
    let c = 4 * n;
    let paths = Paths {
        points: &w[a..a + t.size],
        ends: &w[c..c + t.walks],
    };
    lines_along(paths, ground, len, out, stops)
}

// The whole meander.
fn sew(
    ground: Ground,
    len: f64,
    seed: u64,
    out: &mut [f64],
    stops: &mut [usize],
    w: &mut [usize],
) -> Result<Count, Refusal>
    requires { (points_of ground.grid ≤ most_points) × (8 * points_of ground.grid ≤ length w.old) }
    ensures { LinesSewn (meander_on (rings_of ground.entry.area.outline) ground.entry.area.rule ground.entry.grid len seed) result out.old out.new stops.old stops.new × (length w.new ≡ length w.old) }
{
    mark(w, ground.area, ground.grid);
    let t = walks(w, ground.area, ground.grid, first_seed(seed));
    sew_paths(w, t, ground, len, out, stops)
}

// What is said on a grid, and left: nothing on one with no point or too many, WORK where w is too short for it.
fn on_room(
    o: Outline,
    rule: FillRule,
    g: Lattice,
    len: f64,
    seed: u64,
    out: &mut [f64],
    stops: &mut [usize],
    w: &mut [usize],
) -> Result<Count, Refusal>
    requires { (g.columns ≤ 400001) × (g.rows ≤ 400001) }
    ensures { Said (rings_of o.entry) rule g len seed out.old stops.old (length w.old) (said_count result) out.new stops.new × (length w.new ≡ length w.old) }
{
    let n = g.columns * g.rows;
    if n == 0 || n > 400000 {
        return Ok(Count {
            lines: 0,
            points: 0,
        });
    }
    unless(Refusal::Work, 8 * n <= w.len())?;
    let mut h = [0.0f64; HEIGHTS];
    heights(o, &mut h);
    let area = Area {
        outline: o,
        rule,
        heights: &h,
    };
    sew(Ground { area, grid: g }, len, seed, out, stops, w)
}

// The same, with w all zero.
pub fn on_lattice(
    o: Outline,
    rule: FillRule,
    g: Lattice,
    len: f64,
    seed: u64,
    out: &mut [f64],
    stops: &mut [usize],
    w: &mut [usize],
) -> Result<Count, Refusal>
    requires { (g.columns ≤ 400001) × (g.rows ≤ 400001) }
    ensures { Said (rings_of o.entry) rule g len seed out.old stops.old (length w.old) (said_count result) out.new stops.new × (w.new ≡ replicate (length w.old) 0) }
{
    let said = on_room(o, rule, g, len, seed, out, stops, w);
    w.fill(0);
    said
}
