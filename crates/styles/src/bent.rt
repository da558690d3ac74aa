// The s form: each stitch longer than 6 becomes three, the middle one pushed sideways, to alternate sides.
ghost use Rattle.std.specs.Prelude.{◌≡◌, cond, ◌+◌, ◌*◌, ◌^◌, ◌<◌, ◌≤◌, length};
ghost use Rattle.refusal.specs.Sewn.{said_sewn, sewn, output};
ghost use Rattle.seqs.specs.Slices.{put, capped};
ghost use Rattle.geom.specs.Outline.{points};
ghost use Rattle.geom.specs.Sewing.{flat, fitted};
ghost use Rattle.satinrules.specs.Column.{bend, bends, s_side, s_stitch};
ghost use Rattle.styles.specs.Sides.{side_to};

use geom::P;
use geom::flat::Points;
use geom::sewing::{add_within, put_point};
use leaves::quick::root;
use leaves::smaller;
use refusal::Refusal;

// How far side k is pushed sideways. Direction and length take one root.
fn bend(k: u64, p: P, q: P) -> P
    ensures { result ≡ bend k p q }
{
    let d = q.minus(p);
    let l = d.len();
    let side = d.towards(l).perp().times(smaller(l * 0.18, 8.0));
    if k % 2 == 0 {
        return side.times(1.0);
    }
    side.times(-1.0)
}

// Only lengths above 6 bend. The square tells below 36, and from the next float on; only 36 itself and a NaN ask for the root.
fn bends(p: P, q: P) -> bool
    ensures { result ≡ bends p q }
{
    let v = q.minus(p);
    let d = v.dot(v);
    if d < 36.0 {
        return false;
    }
    if d >= 36.00000000000001 {
        return true;
    }
    root(d) > 6.0
}

// How many points a side has, its last among them.
fn count_side(p: P, q: P) -> u64
    ensures { result ≡ cond (bends p q) 3 1 }
{
    if bends(p, q) { 3 } else { 1 }
}

// The points of side k, from `to` on; answers the place after them.
fn put_side(out: &mut [f64], to: usize, k: u64, p: P, q: P) -> usize
    requires { to + 2 * length (side_to s_side k p q) ≤ length out.old }
    ensures { (out.new ≡ put out.old to (flat (side_to s_side k p q))) × (result ≡ to + 2 * length (side_to s_side k p q)) }
{
    if bends(p, q) {
        let b = bend(k, p, q);
        put_point(out, to, p.lerp(q, 0.3).plus(b));
        put_point(out, to + 2, p.lerp(q, 0.7).minus(b));
        put_point(out, to + 4, q);
        return to + 6;
    }
    put_point(out, to, q);
    to + 2
}

// How many points the bent path has, or room + 1 where they pass the room.
pub fn count_bent(line: &[f64], room: u64) -> u64
    requires { room < 2 ^ 63 }
    ensures { result ≡ capped room (length (s_stitch (points line.now))) }
{
    let mut corners = Points::of(line);
    let Some(mut p) = corners.next() else {
        return 0;
    };
    let mut c: u64 = 1;
    for q in corners {
        c = add_within(c, count_side(p, q), room);
        p = q;
    }
    c
}

// The bent path from k on; answers the place after it.
pub fn put_bent(out: &mut [f64], k: usize, line: &[f64]) -> usize
    requires { k + length (flat (s_stitch (points line.now))) ≤ length out.old }
    ensures { (out.new ≡ put out.old k (flat (s_stitch (points line.now)))) × (result ≡ k + length (flat (s_stitch (points line.now)))) }
{
    let mut corners = Points::of(line);
    let Some(mut p) = corners.next() else {
        return k;
    };
    put_point(out, k, p);
    let mut to = k + 2;
    let mut side: u64 = 0;
    for q in corners {
        to = put_side(out, to, side, p, q);
        p = q;
        side += 1;
    }
    to
}

// The bent path to the front of out, or ROOM and nothing. Three points a side and one more are the most: where they have room, nothing is counted first.
pub fn s_stitch(line: &[f64], out: &mut [f64]) -> Result<u64, Refusal>
    ensures { (said_sewn result ≡ sewn (fitted (s_stitch (points line.now)) (length out.old)) (length (s_stitch (points line.now)))) × (out.new ≡ output (fitted (s_stitch (points line.now)) (length out.old)) (flat (s_stitch (points line.now))) out.old) }
{
    if line.len() / 2 <= (out.len() / 2 + 2) / 3 {
        let end = put_bent(out, 0, line);
        return Ok((end / 2) as u64);
    }
    let room = (out.len() / 2) as u64;
    let points = count_bent(line, room);
    if points > room {
        return Err(Refusal::Room);
    }
    put_bent(out, 0, line);
    Ok(points)
}
