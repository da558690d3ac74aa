// The sides of an outline that cross a height, gathered once where many points of that height are asked about.
ghost use Rattle.std.specs.Prelude.{◌≡◌, ◌+◌, ◌*◌, ◌%◌, ◌^◌, ◌≤◌, ◌<◌, length};
ghost use Rattle.seqs.specs.Slices.{Wrote};
ghost use Rattle.geom.specs.Outline.{points};
ghost use Rattle.geom.specs.Rings.{rings_of};
ghost use Rattle.outlines.specs.Inside.{point_inside};
ghost use Rattle.outlines.specs.Sides.{side_sum, side, across, ring_sides, Gathered};

use crate::area::Area;
use crate::rule::FillRule;
use crate::winding::edge;
use geom::flat::Points;
use geom::sewing::corner;
use geom::{Outline, P};

// The side from a to b from k on, if there is room for it; answers where the next goes.
fn put_side(out: &mut [f64], k: usize, a: P, b: P) -> usize
    requires { k < 2 ^ 62 }
    ensures { Wrote out.old out.new k (side a b) × (result ≡ k + 4) }
{
    if out.len() < k + 4 {
        return k + 4;
    }
    out[k] = a.x;
    out[k + 1] = a.y;
    out[k + 2] = b.x;
    out[k + 3] = b.y;
    k + 4
}

// The same where just one of its ends has at most this y: any other adds nothing at this height.
fn put_across(out: &mut [f64], k: usize, a: P, b: P, y: f64) -> usize
    requires { k < 2 ^ 62 }
    ensures { Wrote out.old out.new k (across y a b) × (result ≡ k + length (across y a b)) × (result ≤ k + 4) }
{
    if a.y <= y {
        if b.y <= y {
            return k;
        }
        return put_side(out, k, a, b);
    }
    if b.y <= y {
        return put_side(out, k, a, b);
    }
    k
}

// Of one ring, handed on as a part of the corner list.
fn put_ring(out: &mut [f64], k: usize, l: &[f64], y: f64) -> usize
    requires { (length l.now % 2 ≡ 0) × (k + 2 * length l.now < 2 ^ 62) }
    ensures { Wrote out.old out.new k (ring_sides y (points l.now)) × (result ≡ k + length (ring_sides y (points l.now))) × (result ≤ k + 2 * length l.now) }
{
    let n = l.len();
    if n < 6 {
        return k;
    }
    let mut a = corner(l, n - 2);
    let mut at = k;
    for b in Points::of(l) {
        at = put_across(out, at, a, b, y);
        a = b;
    }
    at
}

// The sides across y to the front of out; answers how many numbers they are, though out may have no room for them.
pub fn gather(o: Outline, y: f64, out: &mut [f64]) -> usize
    ensures { Gathered (rings_of o.entry) y result out.new }
{
    let mut n = 0;
    let mut a = 0;
    for e in o.ends {
        n = put_ring(out, n, o.part(a, *e), y);
        a = *e;
    }
    n
}

// What gathered sides add to the winding number of p.
pub fn crossed(s: &[f64], p: P) -> i64
    ensures { result ≡ side_sum p s.now }
{
    let n = s.len();
    let mut w: i64 = 0;
    let mut i = 0;
    while i + 3 < n {
        w += edge(corner(s, i), corner(s, i + 2), p);
        i += 4;
    }
    w
}

// Whether p is inside, with the first n numbers of s the sides across p's height; where s has no room for them, by the outline.
pub fn point_inside_at(o: Outline, s: &[f64], n: usize, rule: FillRule, p: P) -> bool
    requires { Gathered (rings_of o) p.y n s.now }
    ensures { result ≡ point_inside (rings_of o.entry) rule p }
{
    if n <= s.len() {
        return rule.inside(crossed(&s[0..n], p));
    }
    Area::of(o, rule).has(p)
}
