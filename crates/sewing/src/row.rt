// A row's targets, by index.
ghost use Rattle.std.specs.Prelude.{◌≡◌, ◌+◌, ◌<◌, ◌≤◌, ◌^◌, pos, ◌+ℤ◌};
ghost use Rattle.std.specs.Int.{w64};
ghost use Rattle.std.proofs.Common.{SFits};
ghost use Rattle.numbers.specs.Num.{◌⊕◌, ◌⊗◌, real};
ghost use Rattle.seqs.specs.Slices.{capped};
ghost use Rattle.geom.specs.Point.{point};
ghost use Rattle.rules.specs.Fill.{rem_euclid, how_many};
ghost use Rattle.sewing.specs.Sewing.{most, row_by, Near, target};

use geom::P;
use leaves::{ceil, floor, of_i64, to_i64};

// `first`, then n needle points off + m * len from m0 on, left to right or back, then `last`.
#[derive(Clone, Copy)]
pub struct Row {
    pub y: f64,
    pub first: f64,
    pub last: f64,
    pub off: f64,
    pub m0: i64,
    pub n: u64,
    pub forward: bool,
}

// A row of which each needle point's number is one of the machine's.
#[derive(Clone, Copy)]
pub struct Line {
    pub row: Row,
    pub ghost near: { Near row },
}

// The never-negative remainder of a row number.
pub fn remainder(k: i64, cycle: u64) -> u64
    requires { (0 < cycle) × (cycle ≤ 2 ^ 32) }
    ensures { result ≡ rem_euclid k cycle }
{
    k.rem_euclid(cycle as i64) as u64
}

// How many whole numbers from lo to hi.
fn reach(lo: i64, hi: i64) -> u64
    ensures { result ≡ capped most (how_many lo hi) }
{
    if hi < lo {
        return 0;
    }
    hi.abs_diff(lo).saturating_add(1).min(1 << 63)
}

// The row of a piece whose stagger is `off`.
pub fn row_of(len: f64, margin: f64, off: f64, y: f64, xa: f64, xb: f64, forward: bool) -> Line
    ensures { result.row ≡ row_by len margin off y xa xb forward }
{
    let m0 = to_i64(ceil((xa + margin - off) / len));
    let m1 = to_i64(floor((xb - margin - off) / len));
    let n = reach(m0, m1);
    let (first, last) = if forward { (xa, xb) } else { (xb, xa) };
    Line {
        row: Row {
            y,
            first,
            last,
            off,
            m0,
            n,
            forward,
        },
    }
}

// off + (m0 + i) * len
fn needle_at(m0: i64, i: u64, off: f64, len: f64) -> f64
    requires { SFits w64 (m0 +ℤ pos i) × (i < 2 ^ 63) }
    ensures { result ≡ off ⊕ real (m0 +ℤ pos i) ⊗ len }
{
    off + of_i64(m0 + (i as i64)) * len
}

// Target r of n + 2, in the order sewn.
pub fn target_at(l: Line, len: f64, r: u64) -> P
    requires { l.row.n < 2 ^ 63 }
    ensures { result ≡ point (target len l.row r) l.row.y }
{
    let w = l.row;
    let x = if r == 0 {
        w.first
    } else if r > w.n {
        w.last
    } else {
        let i = if w.forward { r - 1 } else { w.n - r };
        needle_at(w.m0, i, w.off, len)
    };
    P { x, y: w.y }
}
