// Document 01's limits, named in this one place, and the tests that hold input to them.
#![tactic(auto)]

ghost use Rattle.std.specs.Prelude.{◌≡◌, true, false, MatchResult};
ghost use Rattle.refusal.specs.declared.Refusal.TheVariants.{Layout};
ghost use Rattle.geom.specs.Outline.{rising};
ghost use Rattle.limits.specs.Limits.{within, good_number, good_point, good_numbers, good_spacing, good_len, good_step, good_inset, good_stagger, good_cell, good_passes, good_underlay, good_split, good_turn, good_outline, good_line};

use geom::{Outline, P};
use leaves::is_finite;
use refusal::Refusal;

// Of an outline; of an outline in all; of one rail or line; of a column.
pub const MOST_RINGS: usize = 255;

pub const MOST_CORNERS: usize = 1024;

pub const MOST_ON_LINE: usize = 1024;

pub const MOST_SYNCS: usize = 256;
// Of a fill; of cross stitch, either way; of a pass.
pub const MOST_ROWS: usize = 4096;

pub const MOST_CELLS: usize = 4096;

pub const MOST_PAIRS: u64 = 65536;
// The size of a coordinate.
pub const LARGEST: f64 = 100000.0;

// Ends included; a NaN is outside.
pub fn within(lo: f64, hi: f64, x: f64) -> bool
    ensures { result ≡ within lo hi x }
{
    if lo <= x {
        return x <= hi;
    }
    false
}

// A coordinate, sync value or lerp fraction.
pub fn good_number(x: f64) -> bool
    ensures { result ≡ good_number x }
{
    within(-LARGEST, LARGEST, x)
}

pub fn good_point(p: P) -> bool
    ensures { result ≡ good_point p }
{
    if good_number(p.x) {
        return good_number(p.y);
    }
    false
}

// No early way out: so it compiles to wide compares.
pub fn good_numbers(l: &[f64]) -> bool
    ensures { result ≡ good_numbers l.now }
{
    let mut ok = true;
    for x in l {
        if !good_number(*x) {
            ok = false;
        }
    }
    ok
}

pub fn good_spacing(spacing: f64) -> bool
    ensures { result ≡ good_spacing spacing }
{
    within(0.5, 1000.0, spacing)
}

// len and run_len
pub fn good_len(len: f64) -> bool
    ensures { result ≡ good_len len }
{
    within(1.0, 1000.0, len)
}

// The step of segment_inside and pairs.
pub fn good_step(step: f64) -> bool
    ensures { result ≡ good_step step }
{
    within(0.5, 1000.0, step)
}

// inset and pull
pub fn good_inset(x: f64) -> bool
    ensures { result ≡ good_inset x }
{
    within(-100.0, 100.0, x)
}

pub fn good_stagger(n: u64) -> bool
    ensures { result ≡ good_stagger n }
{
    n <= 1000
}

pub fn good_cell(cell: f64) -> bool
    ensures { result ≡ good_cell cell }
{
    within(1.0, 1000.0, cell)
}

pub fn good_passes(n: u64) -> bool
    ensures { result ≡ good_passes n }
{
    n <= 64
}

pub fn good_underlay(n: u64) -> bool
    ensures { result ≡ good_underlay n }
{
    n <= 7
}

// A split's length.
pub fn good_split(max: f64) -> bool
    ensures { result ≡ good_split max }
{
    within(0.5, 1000.0, max)
}

// A cosine and a sine: the ends are the f64s nearest to 0.999999 and 1.000001.
pub fn good_turn(c: f64, s: f64) -> bool
    ensures { result ≡ good_turn c s }
{
    if is_finite(c) {
        if is_finite(s) {
            return within(0.999999, 1.000001, c * c + s * s);
        }
    }
    false
}

// The ends never fall, and the last is n; with none, n is 0.
fn ends_rise(ends: &[usize], n: usize) -> bool
    ensures { result ≡ rising 0 ends.now n }
{
    let mut a = 0;
    for e in ends {
        if *e < a {
            return false;
        }
        a = *e;
    }
    a == n
}

// The layout of an outline.
pub fn good_outline(corners: &[f64], ends: &[usize]) -> bool
    ensures { result ≡ good_outline corners.now ends.now }
{
    let n = corners.len();
    if n % 2 != 0 {
        return false;
    }
    if ends.len() > MOST_RINGS {
        return false;
    }
    if n / 2 > MOST_CORNERS {
        return false;
    }
    ends_rise(ends, n / 2)
}

// The outline that corners and ends lay out, if they do.
pub fn outline<'a>(corners: &'a [f64], ends: &'a [usize]) -> Result<Outline<'a>, Refusal>
    ensures { MatchResult result (λ o. (o.corners.now ≡ corners.now) × (o.ends.now ≡ ends.now) × (good_outline corners.now ends.now ≡ true)) (λ e. (e ≡ Layout) × (good_outline corners.now ends.now ≡ false)) }
{
    if good_outline(corners, ends) {
        Ok(Outline { corners, ends })
    } else {
        Err(Refusal::Layout)
    }
}

// The layout of a rail or line.
pub fn good_line(l: &[f64]) -> bool
    ensures { result ≡ good_line l.now }
{
    let n = l.len();
    if n % 2 != 0 {
        return false;
    }
    n / 2 <= MOST_ON_LINE
}
