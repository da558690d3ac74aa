// The parts of a line that lie inside an outline, for a line of any length and any numbers: the source's clip_inside.
#![tactic(auto)]

ghost use Rattle.std.specs.Prelude.{◌≡◌, ◌+◌, ◌*◌, ◌≤◌, length};
ghost use Rattle.seqs.specs.Slices.{put};
ghost use Rattle.refusal.specs.Refusal.{DONE};
ghost use Rattle.geom.specs.Rings.{rings_of};
ghost use Rattle.outlines.specs.Inside.{point_inside};
ghost use Rattle.geom.specs.Sewing.{flat};
ghost use Rattle.rules.specs.Calls.{sewn_points};
ghost use Rattle.patterns_rules.specs.Patterns.{piece_inside};
ghost use Rattle.patterns_rules.specs.Answers.{count_of, left_points, left_ends, LinesSewn};
ghost use Rattle.clip.specs.Clip.{clipped, clipped_in, added, ended};

use geom::flat::Points;
use geom::sewing::put_point;
use geom::{Outline, P};
use outlines::heights::{HEIGHTS, heights};
use outlines::{Area, FillRule};
use patterns_rules::Count;
use refusal::Refusal;

// Whether the piece from p to q is kept, where `was` and `is` say whether its ends are inside.
pub fn piece_inside(area: Area, p: P, was: bool, q: P, is: bool) -> bool
    requires { (was ≡ point_inside (rings_of area.outline) area.rule p) × (is ≡ point_inside (rings_of area.outline) area.rule q) }
    ensures { result ≡ piece_inside (rings_of area.entry.outline) area.entry.rule p q }
{
    was && is && area.has_way(p, q, 2.0)
}

// How many points a piece adds, where a run is on or not.
pub fn added(kept: bool, on: bool, p: P, q: P) -> usize
    ensures { (result ≡ length (added kept on p q)) × (result ≤ 2) }
{
    if kept {
        if on {
            return 1;
        }
        return 2;
    }
    0
}

// How many runs it closes.
pub fn ended(kept: bool, on: bool, n: usize) -> usize
    ensures { (result ≡ length (ended kept on n)) × (result ≤ 1) }
{
    if kept {
        return 0;
    }
    if on {
        return 1;
    }
    0
}

// How many runs the line has inside, and how many points they have.
fn count(line: &[f64], area: Area) -> Count
    ensures { result ≡ count_of (clipped_in line.now area.entry) }
{
    let mut corners = Points::of(line);
    let Some(mut p) = corners.next() else {
        return Count {
            lines: 0,
            points: 0,
        };
    };
    let mut was = area.has(p);
    let mut on = false;
    let mut s = 0;
    let mut at = 0;
    for q in corners {
        let is = area.has(q);
        let kept = piece_inside(area, p, was, q, is);
        s += ended(kept, on, at);
        at += added(kept, on, p, q);
        on = kept;
        was = is;
        p = q;
    }
    Count {
        lines: s + ended(false, on, at),
        points: at,
    }
}

// The points that the piece from p to q adds to the n that stand in out.
pub fn put_added(out: &mut [f64], n: usize, kept: bool, on: bool, p: P, q: P)
    requires { 2 * n + length (flat (added kept on p q)) ≤ length out.old }
    ensures { out.new ≡ put out.old (2 * n) (flat (added kept on p q)) }
{
    if kept {
        if on {
            put_point(out, 2 * n, q);
            return;
        }
        put_point(out, 2 * n, p);
        put_point(out, 2 * n + 2, q);
        return;
    }
}

// The end n of the run that it closes, after s others.
pub fn put_ended(stops: &mut [usize], s: usize, kept: bool, on: bool, n: usize)
    requires { s + length (ended kept on n) ≤ length stops.old }
    ensures { stops.new ≡ put stops.old s (ended kept on n) }
{
    if kept {
        return;
    }
    if on {
        stops[s] = n;
        return;
    }
}

// The runs to the front of out, and their ends, in points, to the front of stops; answers how many.
fn write(out: &mut [f64], stops: &mut [usize], line: &[f64], area: Area) -> Count
    requires { (length (flat (sewn_points (clipped_in line.now area))) ≤ length out.old) × (length (clipped_in line.now area) ≤ length stops.old) }
    ensures { (result ≡ count_of (clipped_in line.now area.entry)) × (out.new ≡ left_points DONE (clipped_in line.now area.entry) out.old) × (stops.new ≡ left_ends DONE (clipped_in line.now area.entry) stops.old) }
{
    let mut corners = Points::of(line);
    let Some(mut p) = corners.next() else {
        return Count {
            lines: 0,
            points: 0,
        };
    };
    let mut was = area.has(p);
    let mut on = false;
    let mut s = 0;
    let mut at = 0;
    for q in corners {
        let is = area.has(q);
        let kept = piece_inside(area, p, was, q, is);
        put_ended(stops, s, kept, on, at);
        put_added(out, at, kept, on, p, q);
        s += ended(kept, on, at);
        at += added(kept, on, p, q);
        on = kept;
        was = is;
        p = q;
    }
    put_ended(stops, s, false, on, at);
    Count {
        lines: s + ended(false, on, at),
        points: at,
    }
}

// The runs and their ends, or ROOM and nothing. Each piece adds two points and one run at most: where that has room, nothing is counted first.
fn clip_by(line: &[f64], area: Area, out: &mut [f64], stops: &mut [usize]) -> Result<Count, Refusal>
    ensures { LinesSewn (clipped_in line.now area.entry) result out.old out.new stops.old stops.new }
{
    let n = line.len();
    if n <= out.len() / 2 && n / 2 <= stops.len() {
        return Ok(write(out, stops, line, area));
    }
    count(line, area).fits(out.len(), stops.len())?;
    Ok(write(out, stops, line, area))
}

// The same for an outline alone: its heights are worked out once a line.
pub fn clip_inside(
    line: &[f64],
    outline: Outline,
    rule: FillRule,
    out: &mut [f64],
    stops: &mut [usize],
) -> Result<Count, Refusal>
    ensures { LinesSewn (clipped line.now outline.entry.corners.now outline.entry.ends.now rule) result out.old out.new stops.old stops.new }
{
    let mut h = [0.0f64; HEIGHTS];
    heights(outline, &mut h);
    let area = Area {
        outline,
        rule,
        heights: &h,
    };
    clip_by(line, area, out, stops)
}
