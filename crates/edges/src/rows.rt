// The rows that the kept edges span, from the rings alone: no working slice is touched.
ghost use Rattle.std.specs.Prelude.{◌≡◌, ◌<◌};
ghost use Rattle.seqs.specs.Lists.{fold};
ghost use Rattle.seqs.specs.Slices.{capped};
ghost use Rattle.geom.specs.Rings.{rings_of};
ghost use Rattle.rules.specs.Fill.{how_many, row_at, edges};
ghost use Rattle.edges.specs.Table.{found};
ghost use Rattle.edges.specs.Span.{widen, nowhere, rows_of, row_number, Spanned};

use crate::side::kept_side;
use crate::sides::Sides;
use geom::Outline;
use leaves::{ceil, floor, larger, of_i64, smaller, to_i64};
use rules::{Edge, Settings};

// Top and bottom of the edges met so far, and whether there are any.
// kept (1): no plainer: the rows of no edges are reckoned too, so there is always a top and a bottom beside the flag
#[derive(Clone, Copy)]
pub struct Extent {
    pub any: bool,
    pub top: f64,
    pub bottom: f64,
}

// The source's k_lo and k_hi: n rows, or 4,097 where there are more than 4,096.
// kept (5): no plainer: `Spanned` as a ghost field would stand in the definition `rows_of` too, and each equation of rows carry its proof
#[derive(Clone, Copy)]
pub struct Rows {
    pub lo: i64,
    pub hi: i64,
    pub n: usize,
}

// With a side's edge, if it is kept.
fn widened(x: Extent, s: Option<Edge>) -> Extent
    ensures { result ≡ fold widen x (found s) }
{
    let Some(e) = s else {
        return x;
    };
    Extent {
        any: true,
        top: smaller(x.top, e.y0),
        bottom: larger(x.bottom, e.y1),
    }
}

fn extent_of(o: Outline, g: Settings) -> Extent
    ensures { result ≡ fold widen nowhere (edges g (rings_of o.entry)) }
{
    let mut x = Extent {
        any: false,
        top: f64::INFINITY,
        bottom: f64::NEG_INFINITY,
    };
    for (a, b) in Sides::of(o, g) {
        x = widened(x, kept_side(a, b));
    }
    x
}

// How many from lo to hi, or 4,097 where there are more than 4,096.
fn how_many(lo: i64, hi: i64) -> usize
    ensures { result ≡ capped 4096 (how_many lo hi) }
{
    if hi < lo {
        return 0;
    }
    hi.abs_diff(lo).min(4096) as usize + 1
}

// The rows of all rings.
pub fn rows_of(o: Outline, g: Settings) -> Rows
    ensures { result ≡ rows_of g (edges g (rings_of o.entry)) }
{
    let x = extent_of(o, g);
    let lo = to_i64(ceil(x.top / g.spacing - 0.5));
    let hi = to_i64(floor(x.bottom / g.spacing - 0.5));
    let n = if x.any { how_many(lo, hi) } else { 0 };
    Rows { lo, hi, n }
}

// The number of row r in the order met.
pub fn row_number(w: Rows, upward: bool, r: usize) -> i64
    requires { Spanned w × (r < w.n) }
    ensures { result ≡ row_number w upward r }
{
    if upward {
        return w.hi - (r as i64);
    }
    w.lo + (r as i64)
}

// Row k stands at (k + 0.5)·spacing.
pub fn row_at(g: Settings, k: i64) -> f64
    ensures { result ≡ row_at g k }
{
    (of_i64(k) + 0.5) * g.spacing
}
