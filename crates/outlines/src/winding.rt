// What an edge, a run of edges and a ring add to the winding number of a point.
ghost use Rattle.std.specs.Prelude.{◌≡◌, true, ◌+◌, ◌-◌, ◌*◌, ◌%◌, ◌^◌, ◌<◌, min, length, pos};
ghost use Rattle.std.specs.Float.Ieee.{lt};
ghost use Rattle.numbers.specs.Value.{Within};
ghost use Rattle.geom.specs.Outline.{points};
ghost use Rattle.outlines.specs.Winding.{edge, ring};
ghost use Rattle.outlines.specs.Runs.{chain, one_side};
ghost use Rattle.outlines.specs.Heights.{Block, Beside, Heights};

use crate::heights::{BLOCKS, near};
use geom::flat::Points;
use geom::sewing::corner;
use geom::{P, cross};

// What the edge from a to b adds.
pub fn edge(a: P, b: P, p: P) -> i64
    ensures { result ≡ edge a b p }
{
    if a.y <= p.y {
        if b.y > p.y {
            if cross(b.minus(a), p.minus(a)) > 0.0 {
                return 1;
            }
        }
        return 0;
    }
    if b.y <= p.y {
        if cross(b.minus(a), p.minus(a)) < 0.0 {
            return -1;
        }
    }
    0
}

// What the edges between the corners of l add, one by one.
fn chain(l: &[f64], p: P) -> i64
    ensures { result ≡ chain p (points l.now) }
{
    let mut corners = Points::of(l);
    let Some(mut a) = corners.next() else {
        return 0;
    };
    let mut w: i64 = 0;
    for b in corners {
        w += edge(a, b, p);
        a = b;
    }
    w
}

// Whether all corners of l, or none, have at most this y: then their edges add nothing. It compiles to a few wide compares.
fn one_side(l: &[f64], y: f64) -> bool
    ensures { result ≡ one_side y (points l.now) }
{
    let mut c = 0;
    for a in Points::of(l) {
        if a.y <= y {
            c += 1;
        }
    }
    if c == 0 {
        return true;
    }
    c == l.len() / 2
}

// Whether p lies right of the corners whose greatest x is `right`.
fn right_of(right: f64, p: P) -> bool
    ensures { result ≡ true → (lt right p.x ≡ true) × Within 20 p.x × Within 20 p.y }
{
    if right < p.x {
        if near(p.x) {
            return near(p.y);
        }
    }
    false
}

// Whether p lies beside the corners of block b, so that the sides between them add nothing.
fn beside(t: &[f64], b: usize, p: P) -> bool
    requires { 3 * b + 2 < length t.now }
    ensures { result ≡ true → Beside t.now b p }
{
    let k = 3 * b;
    if p.y < t[k] {
        return true;
    }
    if t[k + 1] <= p.y {
        return true;
    }
    right_of(t[k + 2], p)
}

// Whether the sides between the corners of l, which are of block b, add nothing: by the block's heights where t has them.
fn passed(l: &[f64], t: &[f64], b: usize, p: P) -> bool
    requires { b < 128 → Block b (points l.now) t.now }
    ensures { result ≡ true → chain p (points l.now) ≡ pos 0 }
{
    if b < BLOCKS {
        if b < t.len() / 3 {
            return beside(t, b, p);
        }
    }
    one_side(l, p.y)
}

// Whether ring k is passed over, by its heights where t has them.
fn ring_passed(t: &[f64], k: usize, p: P) -> bool
    ensures { result ≡ true → (3 * (128 + k) + 2 < length t.now) × Beside t.now (128 + k) p }
{
    let m = t.len() / 3;
    if m > BLOCKS {
        if k < m - BLOCKS {
            return beside(t, BLOCKS + k, p);
        }
    }
    false
}

fn span(l: &[f64], t: &[f64], b: usize, p: P) -> i64
    requires { b < 128 → Block b (points l.now) t.now }
    ensures { result ≡ chain p (points l.now) }
{
    if passed(l, t, b, p) {
        return 0;
    }
    chain(l, p)
}

// Where the part of block b ends among the n corners of a ring that starts at place a of the outline.
fn part_end(a: usize, b: usize, n: usize) -> usize
    requires { (a < 8 * b + 8) × (8 * b + 9 < 2 ^ 63) }
    ensures { result ≡ min (8 * b + 9 - a) n }
{
    let e = 8 * b + 9 - a;
    if e < n {
        return e;
    }
    n
}

// Ring r, handed on as a part of the corner list, from place a of it on: a block of sides at a time.
pub(crate) fn ring(l: &[f64], t: &[f64], r: usize, a: usize, p: P) -> i64
    requires { (length l.now % 2 ≡ 0) × (a + length l.now < 2 ^ 62) × Heights a (points l.now) t.now × Block (128 + r) (points l.now) t.now }
    ensures { result ≡ ring p (points l.now) }
{
    let n = l.len() / 2;
    if n < 3 {
        return 0;
    }
    if ring_passed(t, r, p) {
        return 0;
    }
    let last = corner(l, l.len() - 2);
    let mut w = edge(last, corner(l, 0), p);
    let mut k = 0;
    while k + 1 < n {
        let b = (a + k) / 8;
        let e = part_end(a, b, n);
        let from = 2 * k;
        let to = 2 * e;
        w += span(&l[from..to], t, b, p);
        k = e - 1;
    }
    w
}
