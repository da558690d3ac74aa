// The underlay's points, one for each pair, on or back along the column.
ghost use Rattle.std.specs.Prelude.{◌≡◌, cond, ◌+◌, ◌-◌, ◌*◌, ◌/◌, ◌<◌, ◌≤◌, length};
ghost use Rattle.seqs.specs.Slices.{put};
ghost use Rattle.geom.specs.Outline.{points};
ghost use Rattle.geom.specs.Sewing.{flat};
ghost use Rattle.satinrules.specs.Column.{inset, turned_if};
ghost use Rattle.passes.specs.Threads.{pair_in, pairs_in, point_of, thread_of};

use geom::P;
use geom::sewing::{corner, put_point};
use leaves::smaller;
use satinrules::{Pair, Satin};

// Which point of a pair a pass takes.
#[derive(Clone, Copy)]
pub enum Thread {
    Middle,
    SideA,
    SideB,
    Alternate,
}

// The pair whose numbers begin at place i.
pub fn pair_in(s: &[f64], i: usize) -> Pair
    requires { i + 3 < length s.now }
    ensures { result ≡ pair_in s.now i }
{
    let a = corner(s, i);
    let b = corner(s, i + 2);
    Pair { a, b }
}

// Both points so far inside the rails. From b to a it is as far as from a to b: one root is enough.
fn inset(q: Pair) -> Pair
    ensures { result ≡ inset q }
{
    let a = q.a;
    let b = q.b;
    let v = a.minus(b);
    let l = v.len();
    let d = smaller(Satin::UNDERLAY_INSET, l * 0.25);
    let p = a.plus(b.minus(a).towards(l).times(d));
    let r = b.plus(v.towards(l).times(d));
    Pair { a: p, b: r }
}

// The point that a pass takes of pair j.
fn point_of(thread: Thread, j: usize, q: Pair) -> P
    ensures { result ≡ point_of thread j q }
{
    match thread {
        Thread::Middle => q.a.lerp(q.b, 0.5),
        Thread::SideA => inset(q).a,
        Thread::SideB => inset(q).b,
        Thread::Alternate => { if j % 2 == 1 { inset(q).b } else { inset(q).a } }
    }
}

// The pair that is sewn at r of n.
fn place(r: usize, n: usize, back: bool) -> usize
    requires { r < n }
    ensures { (result ≡ cond back (n - 1 - r) r) × (result < n) }
{
    if back { n - 1 - r } else { r }
}

// A pass over the pairs s, from k on; answers the place after it.
pub fn put_thread(out: &mut [f64], k: usize, s: &[f64], thread: Thread, back: bool) -> usize
    requires { k + 2 * (length s.now / 4) ≤ length out.old }
    ensures { (out.new ≡ put out.old k (flat (turned_if back (thread_of thread (pairs_in (points s.now)))))) × (result ≡ k + 2 * (length s.now / 4)) }
{
    let n = s.len() / 4;
    let mut to = k;
    for r in 0..n {
        let j = place(r, n, back);
        put_point(out, to, point_of(thread, j, pair_in(s, 4 * j)));
        to += 2;
    }
    to
}
