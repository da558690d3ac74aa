// What is dropped of a ring, and why: a mark for each corner.
ghost use Rattle.std.specs.Prelude.{◌≡◌, map, ◌*◌, length, None};
ghost use Rattle.geom.specs.Outline.{points};
ghost use Rattle.salvage.specs.Ring.{kept, finite_point, same, repeats, stray, after, strays, closed, few, ring_marks};
ghost use Rattle.salvage.specs.RingLaws.{first_kept, last_kept};

use crate::writing::count_kept;
use geom::P;
use geom::flat::Points;
use geom::sewing::corner;
use leaves::{is_finite, to_bits};
use limits::good_point;

// kept (1): C: a mark is the number that `reasons` hands out, and request [11] numbers them so
pub const KEPT: usize = 0;

pub const NOT_FINITE: usize = 1;

pub const BEYOND: usize = 2;

pub const REPEATED: usize = 3;

pub const CLOSING: usize = 4;

pub const FEW: usize = 5;

pub fn is_kept(m: &usize) -> bool
    ensures { result ≡ kept m.now }
{
    *m == KEPT
}

// kept (4): no plainer: P's own equality would be the floats', by which -0 is +0
// Equal in bits: -0 and +0 are not.
#[tactic(auto, unfolding(crate::specs::Ring::same))]
fn same(p: P, q: P) -> bool
    ensures { result ≡ same p q }
{
    to_bits(p.x) == to_bits(q.x) && to_bits(p.y) == to_bits(q.y)
}

fn finite_point(p: P) -> bool
    ensures { result ≡ finite_point p }
{
    is_finite(p.x) && is_finite(p.y)
}

fn repeats(last: Option<P>, p: P) -> bool
    ensures { result ≡ repeats last p }
{
    match last {
        None => false,
        Some(q) => same(q, p),
    }
}

// The mark of a corner by itself and by the last of the ring that is kept, if there is one yet.
fn stray(last: Option<P>, p: P) -> usize
    ensures { result ≡ stray last p }
{
    if !finite_point(p) {
        return NOT_FINITE;
    }
    if !good_point(p) {
        return BEYOND;
    }
    if repeats(last, p) {
        return REPEATED;
    }
    KEPT
}

fn after(last: Option<P>, m: usize, p: P) -> Option<P>
    ensures { result ≡ after last m p }
{
    if m == KEPT { Some(p) } else { last }
}

fn mark_strays(ring: &[f64], marks: &mut [usize])
    requires { length ring.now ≡ 2 * length marks.old }
    ensures { marks.new ≡ strays None (points ring.now) }
{
    let mut last = None;
    for (i, p) in Points::of(ring).enumerate() {
        let m = stray(last, p);
        marks[i] = m;
        last = after(last, m, p);
    }
}

// The place of the first that is kept; with none, how many there are.
fn first_kept(marks: &[usize]) -> usize
    ensures { result ≡ first_kept marks.now }
{
    marks.iter().position(is_kept).unwrap_or(marks.len())
}

// The place of the last that is kept; with none, 0.
fn last_kept(marks: &[usize]) -> usize
    ensures { result ≡ last_kept 0 0 marks.now }
{
    marks.iter().rposition(is_kept).unwrap_or(0)
}

// Of two or more left, a last corner equal to the first.
fn mark_closing(ring: &[f64], marks: &mut [usize])
    requires { length ring.now ≡ 2 * length marks.old }
    ensures { marks.new ≡ closed (points ring.now) marks.old }
{
    if count_kept(marks) < 2 {
        return;
    }
    let f = first_kept(marks);
    let l = last_kept(marks);
    if same(corner(ring, 2 * f), corner(ring, 2 * l)) {
        marks[l] = CLOSING;
    }
}

fn few(m: usize) -> usize
    ensures { result ≡ few m }
{
    if m == KEPT {
        return FEW;
    }
    m
}

fn mark_all(marks: &mut [usize])
    ensures { marks.new ≡ map few marks.old }
{
    for m in marks.iter_mut() {
        *m = few(*m);
    }
}

pub fn mark_ring(ring: &[f64], marks: &mut [usize])
    requires { length ring.now ≡ 2 * length marks.old }
    ensures { marks.new ≡ ring_marks (points ring.now) }
{
    mark_strays(ring, marks);
    mark_closing(ring, marks);
    if count_kept(marks) < 3 {
        mark_all(marks);
    }
}
