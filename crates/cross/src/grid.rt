// The bounds of an outline, and the cells within them.
ghost use Rattle.std.specs.Prelude.{◌≡◌, true, cond, ◌^◌, ◌<◌, nat_abs, ◌-ℤ◌};
ghost use Rattle.std.specs.Float.Ieee.{lt};
ghost use Rattle.std.specs.Int.Signed.{lt_z};
ghost use Rattle.seqs.specs.Slices.{capped};
ghost use Rattle.geom.specs.Outline.{points};
ghost use Rattle.limits.specs.Limits.{most_cells};
ghost use Rattle.patterns_rules.specs.Patterns.{up_to, grid_in};
ghost use Rattle.cross.specs.Cells.{bounds_of, Alike, Settled, stopped};

use geom::flat::Points;
use leaves::{ceil, floor, is_finite, larger, smaller, to_i64};
use patterns_rules::{Bounds, Grid};

// What lies first, by value.
fn least(side: f64, x: f64) -> f64
    ensures { result ≡ cond (lt x side) x side }
{
    if x < side { x } else { side }
}

// What lies last, by value.
fn most(side: f64, x: f64) -> f64
    ensures { result ≡ cond (lt side x) x side }
{
    if side < x { x } else { side }
}

// With -0 before +0 at every corner.
fn ordered_bounds(corners: &[f64]) -> Bounds
    ensures { result ≡ bounds_of (points corners.now) }
{
    let mut left = f64::INFINITY;
    let mut top = f64::INFINITY;
    let mut right = f64::NEG_INFINITY;
    let mut bottom = f64::NEG_INFINITY;
    for q in Points::of(corners) {
        left = smaller(left, q.x);
        top = smaller(top, q.y);
        right = larger(right, q.x);
        bottom = larger(bottom, q.y);
    }
    Bounds {
        left,
        top,
        right,
        bottom,
    }
}

// The same by plain comparisons: right but for the sign of a zero.
fn plain_bounds(corners: &[f64]) -> Bounds
    ensures { Alike result (bounds_of (points corners.now)) }
{
    let mut left = f64::INFINITY;
    let mut top = f64::INFINITY;
    let mut right = f64::NEG_INFINITY;
    let mut bottom = f64::NEG_INFINITY;
    for q in Points::of(corners) {
        left = least(left, q.x);
        top = least(top, q.y);
        right = most(right, q.x);
        bottom = most(bottom, q.y);
    }
    Bounds {
        left,
        top,
        right,
        bottom,
    }
}

// Whether no side is a zero.
fn settled(b: Bounds) -> bool
    ensures { result ≡ true → Settled b }
{
    b.left != 0.0 && b.top != 0.0 && b.right != 0.0 && b.bottom != 0.0
}

// With no corners, plus infinity below and minus infinity above. Plain comparisons are quick, and tell all sides but a zero.
pub fn bounds(corners: &[f64]) -> Bounds
    ensures { result ≡ bounds_of (points corners.now) }
{
    let b = plain_bounds(corners);
    if settled(b) {
        return b;
    }
    ordered_bounds(corners)
}

// hi - lo, or 4,097 where it is more than 4,096.
fn from_to(lo: i64, hi: i64) -> usize
    requires { (lt_z lo hi ≡ true) × (nat_abs (hi -ℤ lo) < 2 ^ 63) }
    ensures { result ≡ capped most_cells (up_to lo hi) }
{
    let d = (hi - lo) as usize;
    if d <= 4096 {
        return d;
    }
    4097
}

// How many from lo up to hi, or 4,097 where there are more than 4,096: a difference is worked out only where it can't wrap.
fn how_many(lo: i64, hi: i64) -> usize
    ensures { result ≡ capped most_cells (up_to lo hi) }
{
    if lo < hi {
        if hi < 0 {
            return from_to(lo, hi);
        }
        if lo < 0 {
            if lo < -4096 {
                return 4097;
            }
            if 4096 < hi {
                return 4097;
            }
            return from_to(lo, hi);
        }
        return from_to(lo, hi);
    }
    0
}

// The cells within these corners, either count stopped past 4,096.
pub fn grid_of(corners: &[f64], cell: f64) -> Grid
    ensures { result ≡ stopped (grid_in (bounds_of (points corners.now)) cell) }
{
    let b = bounds(corners);
    let left = to_i64(floor(b.left / cell));
    let top = to_i64(floor(b.top / cell));
    if is_finite(b.left) {
        let columns = how_many(left, to_i64(ceil(b.right / cell)));
        let rows = how_many(top, to_i64(ceil(b.bottom / cell)));
        return Grid {
            cell,
            left,
            columns,
            top,
            rows,
        };
    }
    Grid {
        cell,
        left,
        columns: 0,
        top,
        rows: 0,
    }
}
