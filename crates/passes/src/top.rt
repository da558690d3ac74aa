// The top's stitches, and what the column's style makes of them.
ghost use Rattle.std.specs.Prelude.{◌≡◌, [], ◌∷◌, ◌+◌, ◌*◌, ◌^◌, ◌<◌, ◌≤◌, length, take};
ghost use Rattle.seqs.specs.Slices.{put, capped};
ghost use Rattle.geom.specs.Outline.{points};
ghost use Rattle.geom.specs.Sewing.{flat};
ghost use Rattle.satinrules.specs.Column.{spaced, widened, crowded, pulled, stitch, stitches, split_by, styled};
ghost use Rattle.passes.specs.Threads.{pairs_in, moved_in};

use crate::threads::pair_in;
use geom::P;
use geom::flat::Points;
use geom::sewing::{add_within, corner, put_point};
use pairing::store::put_pair;
use satinrules::{Pair, Satin, Style};
use styles::bent::{count_bent, put_bent};
use styles::split::{count_split, put_split};

// The zigzag style triples the spacing.
pub fn spaced(style: Style, spacing: f64) -> f64
    ensures { result ≡ spaced style spacing }
{
    match style {
        Style::Plain | Style::SStitch => spacing,
        Style::Zigzag => spacing * 3.0,
    }
}

// Whether p lies too near to o. From the square of that distance on, 6.25, it needs no root.
fn crowded(p: P, o: P) -> bool
    ensures { result ≡ crowded p o }
{
    let d = p.minus(o);
    if d.x * d.x + d.y * d.y >= 6.25 {
        return false;
    }
    d.len() < Satin::SHORT_DIST
}

// p, moved towards q where it is to be short.
fn pulled(p: P, q: P, by: f64, short: bool) -> P
    ensures { result ≡ pulled p q by short }
{
    if short {
        p.plus(q.minus(p).norm().times(by))
    } else {
        p
    }
}

// Both points moved out by the pull.
fn widened(g: Satin, q: Pair) -> Pair
    ensures { result ≡ widened g q }
{
    let a = q.a;
    let b = q.b;
    let dir = a.minus(b).norm();
    let p = a.plus(dir.times(g.pull));
    let r = b.minus(dir.times(g.pull));
    Pair { a: p, b: r }
}

// Both points moved in where they are to be short, b2 towards the moved a2.
fn moved(w: Pair, near: bool, far: bool) -> Pair
    ensures { result ≡ moved_in w near far }
{
    let a = w.a;
    let b = w.b;
    let by = a.dist(b) * Satin::SHORT_INSET;
    let a2 = pulled(a, b, by, near);
    let b2 = pulled(b, a2, by, far);
    Pair { a: a2, b: b2 }
}

// The same; where neither is to be short, the width isn't asked for.
fn shortened(w: Pair, near: bool, far: bool) -> Pair
    ensures { result ≡ moved_in w near far }
{
    if near || far { moved(w, near, far) } else { w }
}

// The two points of pair q, after o.
fn stitch(g: Satin, second: bool, o: Pair, q: Pair) -> Pair
    ensures { result.a ∷ result.b ∷ [] ≡ stitch g second o q }
{
    let w = widened(g, q);
    if g.short_stitches && second {
        shortened(w, crowded(q.a, o.a), crowded(q.b, o.b))
    } else {
        w
    }
}

// The top's stitches over the n pairs at the front, behind them.
pub fn put_stitches(w: &mut [f64], n: usize, g: Satin)
    requires { (1 ≤ n) × (8 * n ≤ length w.old) }
    ensures { w.new ≡ put w.old (4 * n) (flat (stitches g (pairs_in (points (take (4 * n) w.old))))) }
{
    let mut o = pair_in(w, 0);
    let mut second = false;
    let mut to = 4 * n;
    for k in 0..n {
        let q = pair_in(w, 4 * k);
        put_pair(w, to, stitch(g, second, o, q));
        o = q;
        second = !second;
        to += 4;
    }
}

// How many corners a path has, or room + 1 where they pass the room.
fn count_all(line: &[f64], room: u64) -> u64
    requires { room < 2 ^ 63 }
    ensures { result ≡ capped room (length (points line.now)) }
{
    add_within((line.len() / 2) as u64, 0, room)
}

fn count_plain(line: &[f64], split: Option<f64>, room: u64) -> u64
    requires { room < 2 ^ 63 }
    ensures { result ≡ capped room (length (split_by split (points line.now))) }
{
    match split {
        None => count_all(line, room),
        Some(max) => count_split(line, max, room),
    }
}

// How many points the style makes of a path, or room + 1 where they pass the room.
pub fn count_styled(line: &[f64], split: Option<f64>, style: Style, room: u64) -> u64
    requires { room < 2 ^ 63 }
    ensures { result ≡ capped room (length (styled split style (points line.now))) }
{
    match style {
        Style::Plain => count_plain(line, split, room),
        Style::SStitch => count_bent(line, room),
        Style::Zigzag => count_all(line, room),
    }
}

// A path's corners, from k on, one by one: `copy_from_slice` would have the archive ask for memmove. Answers the place after them.
fn put_all(out: &mut [f64], k: usize, line: &[f64]) -> usize
    requires { k + length (flat (points line.now)) ≤ length out.old }
    ensures { (out.new ≡ put out.old k (flat (points line.now))) × (result ≡ k + length (flat (points line.now))) }
{
    let mut to = k;
    for p in Points::of(line) {
        put_point(out, to, p);
        to += 2;
    }
    to
}

fn put_plain(out: &mut [f64], k: usize, line: &[f64], split: Option<f64>) -> usize
    requires { k + length (flat (split_by split (points line.now))) ≤ length out.old }
    ensures { (out.new ≡ put out.old k (flat (split_by split (points line.now)))) × (result ≡ k + length (flat (split_by split (points line.now)))) }
{
    match split {
        None => put_all(out, k, line),
        Some(max) => put_split(out, k, line, max),
    }
}

// What the style makes of a path, from k on; answers the place after it.
pub fn put_styled(
    out: &mut [f64],
    k: usize,
    line: &[f64],
    split: Option<f64>,
    style: Style,
) -> usize
    requires { k + length (flat (styled split style (points line.now))) ≤ length out.old }
    ensures { (out.new ≡ put out.old k (flat (styled split style (points line.now)))) × (result ≡ k + length (flat (styled split style (points line.now)))) }
{
    match style {
        Style::Plain => put_plain(out, k, line, split),
        Style::SStitch => put_bent(out, k, line),
        Style::Zigzag => put_all(out, k, line),
    }
}
