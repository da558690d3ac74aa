// The stitches along the walks of a meander, streamed: smoothing, resampling and clipping, point by point, counted first and then written. There is no room for a line between.
#![tactic(auto)]

ghost use Rattle.std.specs.Prelude.{◌≡◌, true, length};
ghost use Rattle.geom.specs.Outline.{cut, rising};
ghost use Rattle.geom.specs.Rings.{rings_of};
ghost use Rattle.patterns_rules.specs.Answers.{LinesSewn};
ghost use Rattle.trail.specs.Trail.{trails, run, along_path, Sewed, Counted};

pub mod path;
pub mod pen;

use geom::P;
use meander_rules::Ground;
use path::over_path;
use patterns_rules::Count;
use pen::Pen;
use refusal::Refusal;

// Paths one behind the other, and where each ends.
#[derive(Clone, Copy)]
pub struct Paths<'a> {
    pub points: &'a [usize],
    pub ends: &'a [usize],
    ghost rise: { rising 0 ends.now (length points.now) ≡ true },
}

// No line is begun.
fn idle() -> Pen
    ensures { (result.points ≡ 0) × (result.lines ≡ 0) }
{
    Pen {
        at: P { x: 0.0, y: 0.0 },
        inside: false,
        on: false,
        lines: 0,
        points: 0,
    }
}

// The lines along all paths.
fn over_paths(
    out: &mut [f64],
    stops: &mut [usize],
    paths: Paths,
    ground: Ground,
    len: f64,
    s: Pen,
) -> Pen
    ensures { Sewed (run (along_path (rings_of ground.entry.area.outline) ground.entry.area.rule ground.entry.grid len) (cut 0 paths.entry.ends.now paths.entry.points.now) s) s result out.old out.new stops.old stops.new }
{
    let mut pen = s;
    let mut a = 0;
    for &e in paths.ends {
        pen = over_path(out, stops, &paths.points[a..e], ground, len, pen);
        a = e;
    }
    pen
}

// How many lines and points there are: the same with no room to write.
fn count(paths: Paths, ground: Ground, len: f64) -> Count
    ensures { Counted (trails paths.entry.points.now paths.entry.ends.now (rings_of ground.entry.area.outline) ground.entry.area.rule ground.entry.grid len) result }
{
    let pen = over_paths(&mut [], &mut [], paths, ground, len, idle());
    Count {
        lines: pen.lines,
        points: pen.points,
    }
}

// The lines of all walks: their points to the front of out, and where each line ends, in points, to the front of stops; or ROOM and nothing.
pub fn lines_along(
    paths: Paths,
    ground: Ground,
    len: f64,
    out: &mut [f64],
    stops: &mut [usize],
) -> Result<Count, Refusal>
    ensures { LinesSewn (trails paths.entry.points.now paths.entry.ends.now (rings_of ground.entry.area.outline) ground.entry.area.rule ground.entry.grid len) result out.old out.new stops.old stops.new }
{
    let c = count(paths, ground, len);
    c.fits(out.len(), stops.len())?;
    over_paths(out, stops, paths, ground, len, idle());
    Ok(c)
}
