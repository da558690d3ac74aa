// The pen along a path of grid points: corners rounded, stitches every len. Each smooth point is worked out when its turn comes; none is kept.
ghost use Rattle.std.specs.Prelude.{◌≡◌, ◌<◌, length, get_or};
ghost use Rattle.geom.specs.Rings.{rings_of};
ghost use Rattle.outlines.specs.Inside.{point_inside};
ghost use Rattle.polyline.specs.Line.{piece};
ghost use Rattle.meander_rules.specs.Meander.{place};
ghost use Rattle.trail.specs.Trail.{run, on_to, along_path, ahead, Sewed};

use crate::pen::{Pen, begin, finish, on_to};
use geom::P;
use geom::steps::along;
use leaves::larger;
use meander_rules::Ground;
use outlines::Area;
use polyline::piece_steps;

// The stitches of the piece from a to b.
fn over_piece(out: &mut [f64], stops: &mut [usize], area: Area, a: P, b: P, len: f64, s: Pen) -> Pen
    requires { s.inside ≡ point_inside (rings_of area.outline) area.rule s.at }
    ensures { Sewed (run (on_to (rings_of area.entry.outline) area.entry.rule) (piece a b len) s) s result out.old out.new stops.old stops.new × (result.inside ≡ point_inside (rings_of area.entry.outline) area.entry.rule result.at) }
{
    let n = piece_steps(a, b, len);
    if n == 0 {
        return s;
    }
    let mut pen = s;
    for i in 1..n {
        pen = on_to(out, stops, area, along(a, b, n, i), pen);
    }
    on_to(out, stops, area, b, pen)
}

// All stitches after the path's first point: of each step the points at 0.3 and 0.7 of it, and the last point.
fn over_steps(
    out: &mut [f64],
    stops: &mut [usize],
    path: &[usize],
    ground: Ground,
    len: f64,
    s: Pen,
) -> Pen
    requires { (0 < length path.now) × (s.inside ≡ point_inside (rings_of ground.area.outline) ground.area.rule s.at) }
    ensures { Sewed (run (on_to (rings_of ground.entry.area.outline) ground.entry.area.rule) (ahead ground.entry.grid len path.now (place ground.entry.grid (get_or path.now 0 0)) (place ground.entry.grid (get_or path.now 0 0)) 1) s) s result out.old out.new stops.old stops.new }
{
    let mut a = ground.grid.place(path[0]);
    let mut c = a;
    let mut pen = s;
    for &k in &path[1..] {
        let b = ground.grid.place(k);
        let l = a.lerp(b, 0.3);
        let r = a.lerp(b, 0.7);
        let half = over_piece(out, stops, ground.area, c, l, len, pen);
        pen = over_piece(out, stops, ground.area, l, r, len, half);
        c = r;
        a = b;
    }
    over_piece(out, stops, ground.area, c, a, len, pen)
}

// The line along a path; one of a single point gives none.
pub fn over_path(
    out: &mut [f64],
    stops: &mut [usize],
    path: &[usize],
    ground: Ground,
    len: f64,
    s: Pen,
) -> Pen
    ensures { Sewed (along_path (rings_of ground.entry.area.outline) ground.entry.area.rule ground.entry.grid len path.now s) s result out.old out.new stops.old stops.new }
{
    if path.len() < 2 {
        return s;
    }
    let p = ground.grid.place(path[0]);
    let begun = begin(ground.area, p, s);
    let step = larger(len, 5.0);
    let gone = over_steps(out, stops, path, ground, step, begun);
    finish(stops, gone)
}
