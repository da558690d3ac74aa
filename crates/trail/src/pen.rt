// The pen that clips a line point by point, and what it leaves in two slices: where there is room it writes, and it counts always.
ghost use Rattle.std.specs.Prelude.{◌≡◌, false, ◌*◌, length};
ghost use Rattle.seqs.specs.Slices.{Wrote};
ghost use Rattle.geom.specs.Rings.{rings_of};
ghost use Rattle.geom.specs.Sewing.{flat};
ghost use Rattle.outlines.specs.Inside.{point_inside};
ghost use Rattle.clip.specs.Clip.{added, ended};
ghost use Rattle.trail.specs.Trail.{held, begin, on_to, finish, Sewed};

use clip::{added, ended, piece_inside, put_added, put_ended};
use geom::P;
use outlines::Area;

// How far a line is clipped: the last point, whether it is inside, whether a run is on; and the runs and points of all lines so far, two counts that stop at the largest number.
#[derive(Clone, Copy)]
pub struct Pen {
    pub at: P,
    pub inside: bool,
    pub on: bool,
    pub lines: usize,
    pub points: usize,
}

// The points that the piece from p to q adds to the n before, where out has room for them; answers how many there are then.
fn add(out: &mut [f64], n: usize, kept: bool, on: bool, p: P, q: P) -> usize
    ensures { Wrote out.old out.new (2 * n) (flat (added kept on p q)) × (result ≡ held n (length (added kept on p q))) }
{
    let to = n.saturating_add(added(kept, on, p, q));
    if to > out.len() / 2 {
        return to;
    }
    put_added(out, n, kept, on, p, q);
    to
}

// The end n of the run that it closes, after s others, where there is room for it; answers how many there are then.
fn end(stops: &mut [usize], s: usize, kept: bool, on: bool, n: usize) -> usize
    ensures { Wrote stops.old stops.new s (ended kept on n) × (result ≡ held s (length (ended kept on n))) }
{
    let to = s.saturating_add(ended(kept, on, n));
    if s >= stops.len() {
        return to;
    }
    put_ended(stops, s, kept, on, n);
    to
}

// A line begins at p.
pub fn begin(area: Area, p: P, s: Pen) -> Pen
    ensures { result ≡ begin (rings_of area.entry.outline) area.entry.rule p s }
{
    Pen {
        at: p,
        inside: area.has(p),
        on: false,
        ..s
    }
}

// It goes on to q.
pub fn on_to(out: &mut [f64], stops: &mut [usize], area: Area, q: P, s: Pen) -> Pen
    requires { s.inside ≡ point_inside (rings_of area.outline) area.rule s.at }
    ensures { Sewed (on_to (rings_of area.entry.outline) area.entry.rule q s) s result out.old out.new stops.old stops.new }
{
    let p = s.at;
    let on = s.on;
    let n = s.points;
    let is = area.has(q);
    let kept = piece_inside(area, p, s.inside, q, is);
    let lines = end(stops, s.lines, kept, on, n);
    let points = add(out, n, kept, on, p, q);
    Pen {
        at: q,
        inside: is,
        on: kept,
        lines,
        points,
    }
}

// It ends.
pub fn finish(stops: &mut [usize], s: Pen) -> Pen
    ensures { (result ≡ (finish s).pen) × Wrote stops.old stops.new s.lines (finish s).ends }
{
    let lines = end(stops, s.lines, false, s.on, s.points);
    Pen {
        on: false,
        lines,
        ..s
    }
}
