// The heights of an outline: for each eight sides, and for each ring, the least and the greatest y of their corners, and their
// greatest x, so that a winding number can pass over most of them. Worked out once where many points are asked about.
ghost use Rattle.std.specs.Prelude.{◌≡◌, true, false, ◌+◌, ◌<◌, min, length, set, Float};
ghost use Rattle.std.specs.Float.Ieee.{lt, le};
ghost use Rattle.numbers.specs.Value.{Within};
ghost use Rattle.seqs.specs.Lists.{All};
ghost use Rattle.geom.specs.Outline.{points};
ghost use Rattle.outlines.specs.Heights.{Left, Lies, Heights, Measured};

use geom::Outline;
use geom::flat::Points;

// Blocks for as many corners as document 01 has.
pub const BLOCKS: usize = 128;

// Three numbers for each block, and for each of 64 rings.
pub const HEIGHTS: usize = 576;

#[derive(Clone, Copy)]
pub struct Height {
    pub lo: f64,
    pub hi: f64,
    pub right: f64,
}

// What is below both, or a NaN, which nothing is below.
fn lower(lo: f64, y: f64) -> f64
    ensures { (z : Float) → lt z result ≡ true → (lt z lo ≡ true) × (le y z ≡ false) }
{
    if lo <= y {
        return lo;
    }
    if y <= lo {
        return y;
    }
    0.0 / 0.0
}

// What is above both, or a NaN, which nothing is above.
fn higher(hi: f64, y: f64) -> f64
    ensures { (z : Float) → le result z ≡ true → (le hi z ≡ true) × (le y z ≡ true) }
{
    if y <= hi {
        return hi;
    }
    if hi <= y {
        return y;
    }
    0.0 / 0.0
}

// Whether x is small enough for the differences and products of a winding number.
pub fn near(x: f64) -> bool
    ensures { result ≡ true → Within 20 x }
{
    if -1000000.0 <= x {
        return x <= 1000000.0;
    }
    false
}

// What is right of both, or a NaN, which nothing is right of.
fn righter(right: f64, x: f64, y: f64) -> f64
    ensures { (z : Float) → lt result z ≡ true → (lt right z ≡ true) × Left x y z }
{
    if near(x) {
        if near(y) {
            if x <= right {
                return right;
            }
            if right <= x {
                return x;
            }
        }
    }
    0.0 / 0.0
}

fn height_of(l: &[f64]) -> Height
    ensures { All (Lies result.lo result.hi result.right) (points l.now) }
{
    let mut lo = 1.0 / 0.0;
    let mut hi = -1.0 / 0.0;
    let mut right = -1.0 / 0.0;
    for a in Points::of(l) {
        lo = lower(lo, a.y);
        hi = higher(hi, a.y);
        right = righter(right, a.x, a.y);
    }
    Height { lo, hi, right }
}

fn put_height(t: &mut [f64], to: usize, h: Height)
    requires { to + 2 < length t.old }
    ensures { t.new ≡ set (set (set t.old to h.lo) (to + 1) h.hi) (to + 2) h.right }
{
    t[to] = h.lo;
    t[to + 1] = h.hi;
    t[to + 2] = h.right;
}

// Where the corners of a block that starts at k end, of n.
fn block_end(k: usize, n: usize) -> usize
    requires { k < n }
    ensures { result ≡ min (k + 9) n }
{
    if n - k < 9 {
        return n;
    }
    k + 9
}

// The heights of the blocks to the front of t, as far as it goes.
fn block_heights(corners: &[f64], t: &mut [f64])
    ensures { Heights 0 (points corners.now) t.new }
{
    let n = corners.len() / 2;
    let mut k = 0;
    while k < n {
        let to = 3 * (k / 8);
        if t.len() <= to + 2 {
            return;
        }
        if to >= 3 * BLOCKS {
            return;
        }
        let s = 2 * k;
        let e = 2 * block_end(k, n);
        let h = height_of(&corners[s..e]);
        put_height(t, to, h);
        k += 8;
    }
}

// Those of the rings after them.
fn ring_heights(o: Outline, t: &mut [f64])
    requires { Heights 0 (points o.corners.now) t.old }
    ensures { Measured o.entry.corners.now o.entry.ends.now t.new }
{
    let mut a = 0;
    for (k, e) in o.ends.iter().enumerate() {
        let to = 3 * (BLOCKS + k);
        if t.len() <= to + 2 {
            return;
        }
        let h = height_of(o.part(a, *e));
        put_height(t, to, h);
        a = *e;
    }
}

// All of them, as far as t goes.
pub fn heights(o: Outline, t: &mut [f64])
    ensures { Measured o.entry.corners.now o.entry.ends.now t.new }
{
    block_heights(o.corners, t);
    ring_heights(o, t);
}
