// A rail by its running lengths, the point at a length along it, and the walker that keeps the rail's corners: satin.rs's `Arc`.
#![tactic(auto)]

ghost use Rattle.std.specs.Prelude.{◌≡◌, ◌+◌, ◌*◌, ◌<◌, ◌≤◌, length, drop};
ghost use Rattle.seqs.specs.Slices.{put};
ghost use Rattle.geom.specs.Outline.{points};
ghost use Rattle.satinrules.specs.Arc.{lengths, clamp, partition_point, side_end, fraction, on_side, at};
ghost use Rattle.arc.specs.Rail.{Rising, Railed, not_beyond};

use geom::P;
use geom::flat::Points;
use geom::sewing::corner;

// The running lengths of a rail's corners, from k on.
pub fn put_lengths(out: &mut [f64], k: usize, pts: &[f64])
    requires { k + length (lengths (points pts.now)) ≤ length out.old }
    ensures { out.new ≡ put out.old k (lengths (points pts.now)) }
{
    let mut corners = Points::of(pts);
    let Some(mut p) = corners.next() else {
        return;
    };
    out[k] = 0.0;
    let mut s = 0.0;
    let mut to = k + 1;
    for q in corners {
        s += p.dist(q);
        out[to] = s;
        p = q;
        to += 1;
    }
}

// How many at the front are at most s, by bisection.
fn partition_point(cum: &[f64], s: f64) -> usize
    requires { Rising cum.now }
    ensures { (result ≡ partition_point s cum.now) × (result ≤ length cum.now) }
{
    // kept (3): rule: document 01: closures become named functions, and a bisection by the library wants a closure
    let mut lo = 0;
    let mut hi = cum.len();
    while lo < hi {
        let mid = lo + (hi - lo) / 2;
        if cum[mid] <= s {
            lo = mid + 1;
        } else {
            hi = mid;
        }
    }
    lo
}

// f64::clamp asks lo ≤ hi, and nothing says so of a length that may be a NaN.
fn clamp(s: f64, lo: f64, hi: f64) -> f64
    ensures { result ≡ clamp s lo hi }
{
    if s < lo {
        lo
    } else if s > hi {
        hi
    } else {
        s
    }
}

// k, but at least 1 and at most n - 1.
#[tactic(auto, using(std::proofs::lemmas::Bool::Decides::nat_tests), unfolding(satinrules::specs::Arc::side_end))]
fn side_end(k: usize, n: usize) -> usize
    requires { 2 ≤ n }
    ensures { (result ≡ side_end k n) × (1 ≤ result) × (result < n) }
{
    k.clamp(1, n - 1)
}

// The corner at which the side ends that s lies on. A rail of two corners has one side, and nothing is looked for.
fn side_of(cum: &[f64], s: f64) -> usize
    requires { (2 ≤ length cum.now) × Rising cum.now }
    ensures { (result ≡ side_end (partition_point s cum.now) (length cum.now)) × (1 ≤ result) × (result < length cum.now) }
{
    let n = cum.len();
    if n == 2 {
        return 1;
    }
    let k = partition_point(cum, s);
    side_end(k, n)
}

// How far s is on the way from c to d.
fn fraction(c: f64, d: f64, s: f64) -> f64
    ensures { result ≡ fraction c d s }
{
    let seg = d - c;
    if seg > 1e-12 { (s - c) / seg } else { 0.0 }
}

// The point at s on the side that ends at corner i.
fn on_side(pts: &[f64], cum: &[f64], s: f64, i: usize) -> P
    requires { (length pts.now ≡ 2 * length cum.now) × (1 ≤ i) × (i < length cum.now) }
    ensures { result ≡ on_side (points pts.now) cum.now s i }
{
    let h = i - 1;
    let t = fraction(cum[h], cum[i], s);
    corner(pts, 2 * h).lerp(corner(pts, 2 * i), t)
}

// The point at s along the rail, from its corners and their running lengths.
pub fn at(pts: &[f64], cum: &[f64], s: f64) -> P
    requires { Railed pts.now cum.now }
    ensures { result ≡ at (points pts.now) cum.now s }
{
    let n = cum.len();
    if n == 1 {
        return corner(pts, 0);
    }
    let t = clamp(s, 0.0, cum[n - 1]);
    on_side(pts, cum, t, side_of(cum, t))
}

// A walker along one rail: it keeps the rail's corners.
#[derive(Clone, Copy)]
pub struct Walker<'a> {
    pub pts: &'a [f64],
}

// The point at s along the walker's rail; its running lengths are passed beside it.
pub fn walker_at<'a, 'b>(r: Walker<'a>, cum: &'b [f64], s: f64) -> P
    requires { Railed r.pts.now cum.now }
    ensures { result ≡ at (points r.entry.pts.now) cum.now s }
{
    at(r.pts, cum, s)
}

// The same with plain parameters, for callers.
pub fn along<'a, 'b>(pts: &'a [f64], cum: &'b [f64], s: f64) -> P
    requires { Railed pts.now cum.now }
    ensures { result ≡ at (points pts.now) cum.now s }
{
    walker_at(Walker { pts }, cum, s)
}

// The first corner from k on that lies beyond s, where the side may end that s lies on; past the last where there is none.
pub fn side_from(cum: &[f64], s: f64, k: usize) -> usize
    ensures { result ≡ k + not_beyond s (drop k cum.now) }
{
    for i in k..cum.len() {
        if s < cum[i] {
            return i;
        }
    }
    k.max(cum.len())
}

// The same point. Places mostly go on from the last one, so the side that ends at corner k is tried first, and then the whole rail.
pub fn along_from(pts: &[f64], cum: &[f64], s: f64, k: usize) -> P
    requires { Railed pts.now cum.now }
    ensures { result ≡ at (points pts.now) cum.now s }
{
    if 0 < k && k < cum.len() && 0.0 <= s && cum[k - 1] <= s && s < cum[k] {
        return along(&pts[2 * (k - 1)..2 * (k + 1)], &cum[k - 1..k + 1], s);
    }
    along(pts, cum, s)
}
