// From the pen to a target: how often the way is cut, counted and written.
ghost use Rattle.std.specs.Prelude.{◌≡◌, ◌+◌, ◌*◌, ◌<◌, ◌≤◌, ◌^◌, true, length};
ghost use Rattle.seqs.specs.Slices.{Put};
ghost use Rattle.std.specs.Option.{ForSome};
ghost use Rattle.geom.specs.Sewing.{flat};
ghost use Rattle.sewing.specs.Within.{within};
ghost use Rattle.sewing.specs.Sewing.{cuts_at, cuts_for, cuts, OwnRoot, Decides, gap, sew_to, back, targets, row_sewn};

use crate::row::{Line, target_at};
use crate::thread::Thread;
use geom::P;
use leaves::quick::root;
use leaves::{ceil, of_u64, to_u64};

// Squared lengths that decide with no root: up to `one` a step isn't cut, from `from` to `two` it is cut once.
#[derive(Clone, Copy)]
pub struct Limits {
    pub one: f64,
    pub from: f64,
    pub two: f64,
}

// How many points cut a step of length x.
fn cuts_at(x: f64, len: f64) -> u64
    ensures { result ≡ cuts_at len x }
{
    to_u64(ceil(x / len)).saturating_sub(1)
}

// Whether x is told to be the root of its own square, which is rounded: for all but the tiniest and the largest it is.
fn is_own_root(x: f64) -> bool
    ensures { result ≡ true → OwnRoot x }
{
    1e-100 <= x && x <= 1e100
}

// The squares of len, of the next float above it and of twice len: where these are the squares' roots, no root is taken.
pub fn limits_of(len: f64) -> Option<Limits>
    ensures { ForSome result (λ m. Decides len m) }
{
    let up = len + len * 1.2e-16;
    let twice = len + len;
    if is_own_root(len)
        && is_own_root(up)
        && is_own_root(twice)
        && cuts_at(len, len) == 0
        && 1 <= cuts_at(up, len)
        && cuts_at(twice, len) <= 1
    {
        return Some(Limits {
            one: len * len,
            from: up * up,
            two: twice * twice,
        });
    }
    None
}

// How many points cut a step of squared length d.
fn cuts_for(d: f64, t: &Thread) -> u64
    ensures { result ≡ cuts_for t.now.field.g.len d }
{
    if let Some(m) = t.limits {
        if d <= m.one {
            return 0;
        }
        if m.from <= d && d <= m.two {
            return 1;
        }
    }
    cuts_at(root(d), t.field.g.len)
}

fn cuts_to(p: P, q: P, t: &Thread) -> u64
    ensures { result ≡ cuts t.now.field.g.len p q }
{
    cuts_for((p.x - q.x) * (p.x - q.x) + (p.y - q.y) * (p.y - q.y), t)
}

// The n points that cut the way from p to q, and q, turned back, from k on.
fn put_gap(out: &mut [f64], k: usize, p: P, q: P, n: u64, c: f64, s: f64) -> usize
    requires { k + length (flat (back c s (gap p q n))) ≤ length out.old }
    ensures { Put out.old out.new k (flat (back c s (gap p q n))) × (result ≡ k + length (flat (back c s (gap p q n)))) }
{
    let mut at = k;
    for i in 0..n {
        let t = p.lerp(q, of_u64(i + 1) / of_u64(n + 1)).rotate(c, s);
        out[at] = t.x;
        out[at + 1] = t.y;
        at += 2;
    }
    let t = q.rotate(c, s);
    out[at] = t.x;
    out[at + 1] = t.y;
    at + 2
}

// How many points a row has, sewn from the pen, after c0 others, unless they pass the cap.
pub fn count_row(t: &Thread, l: Line, pen: P, c0: u64, cap: u64) -> Option<u64>
    requires { (c0 ≤ cap) × (cap < 2 ^ 63) }
    ensures { result ≡ within cap (c0 + length (sew_to t.now.field.g.len pen (targets t.now.field.g.len l.row 0 (l.row.n + 2)))) }
{
    if cap < l.row.n {
        return None;
    }
    let end = l.row.n + 2;
    let mut from = pen;
    let mut c = c0;
    for r in 0..end {
        let to = target_at(l, t.field.g.len, r);
        let n = cuts_to(from, to, t);
        if cap - c <= n {
            return None;
        }
        c += n + 1;
        from = to;
    }
    Some(c)
}

// A row's points, sewn from the pen and turned back, from k on.
pub fn put_row(out: &mut [f64], k: usize, t: &Thread, l: Line, pen: P) -> usize
    requires { (k + length (flat (row_sewn t.now.field.g pen l.row)) ≤ length out.old) }
    ensures { Put out.old out.new k (flat (row_sewn t.now.field.g pen l.row)) × (result ≡ k + length (flat (row_sewn t.now.field.g pen l.row))) }
{
    let g = t.field.g;
    let end = l.row.n + 2;
    let mut from = pen;
    let mut at = k;
    for r in 0..end {
        let to = target_at(l, g.len, r);
        let n = cuts_to(from, to, t);
        at = put_gap(out, at, from, to, n, g.cosine, g.sine);
        from = to;
    }
    at
}
