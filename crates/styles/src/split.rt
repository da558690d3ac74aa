// Auto-split: stitches longer than max are broken, the split points staggered from stitch to stitch.
ghost use Rattle.std.specs.Prelude.{◌≡◌, [], ◌∷◌, ◌++◌, ◌+◌, ◌-◌, ◌*◌, ◌^◌, ◌<◌, ◌≤◌, length};
ghost use Rattle.refusal.specs.Sewn.{said_sewn, sewn, output};
ghost use Rattle.seqs.specs.Slices.{put, capped};
ghost use Rattle.geom.specs.Outline.{points};
ghost use Rattle.numbers.specs.Root.{root};
ghost use Rattle.geom.specs.Point.{dist};
ghost use Rattle.geom.specs.Steps.{steps};
ghost use Rattle.geom.specs.Sewing.{flat, fitted};
ghost use Rattle.polyline.specs.Cuts.{square_steps};
ghost use Rattle.satinrules.specs.Column.{stagger, part_end, parts_from, split_side, split_long};
ghost use Rattle.styles.specs.Sides.{side_to};

use geom::P;
use geom::flat::Points;
use geom::sewing::put_point;
use leaves::of_u64;
use polyline::alike::{known, learnt, pieces_of};
use polyline::cuts::root_steps;
use refusal::Refusal;

// The stagger of side k: 0, 0.33 or -0.33.
fn stagger(k: u64) -> f64
    ensures { result ≡ stagger k }
{
    if k % 3 == 0 {
        0.0
    } else if k % 3 == 1 {
        0.33
    } else {
        -0.33
    }
}

// How many points a side of squared length d has, its last among them: k, or looked at anew where k is 0.
fn points_of(k: u64, d: f64, max: f64) -> u64
    requires { 0 < k → k ≡ square_steps d max }
    ensures { result ≡ steps (root d) max }
{
    if k > 0 { k } else { root_steps(d, max) }
}

// Where part j of n ends.
fn part_end(p: P, q: P, n: u64, shift: f64, j: u64) -> P
    ensures { result ≡ part_end p q n shift j }
{
    p.lerp(q, of_u64(j) / of_u64(n) + shift)
}

// The ends of the parts but the last, from k on; answers the place after them.
fn put_parts(out: &mut [f64], k: usize, p: P, q: P, n: u64, shift: f64) -> usize
    requires { k + 2 * (n - 1) ≤ length out.old }
    ensures { (out.new ≡ put out.old k (flat (parts_from p q n shift 1 (n - 1)))) × (result ≡ k + 2 * (n - 1)) }
{
    let mut to = k;
    for j in 1..n {
        put_point(out, to, part_end(p, q, n, shift, j));
        to += 2;
    }
    to
}

// The n points of side k, from `to` on; answers the place after them.
fn put_side(out: &mut [f64], to: usize, k: u64, p: P, q: P, max: f64, n: u64) -> usize
    requires { (n ≡ steps (dist p q) max) × (to + 2 * length (side_to (split_side max) k p q) ≤ length out.old) }
    ensures { (out.new ≡ put out.old to (flat (side_to (split_side max) k p q))) × (result ≡ to + 2 * length (side_to (split_side max) k p q)) }
{
    if n <= 1 {
        put_point(out, to, q);
        return to + 2;
    }
    let last = put_parts(out, to, p, q, n, stagger(k) / of_u64(n));
    put_point(out, last, q);
    last + 2
}

// How many points the split path has, or room + 1 where they pass the room.
pub fn count_split(line: &[f64], max: f64, room: u64) -> u64
    requires { room < 2 ^ 63 }
    ensures { result ≡ capped room (length (split_long (points line.now) max)) }
{
    let mut corners = Points::of(line);
    let Some(mut p) = corners.next() else {
        return 0;
    };
    if room == 0 {
        return 1;
    }
    let one = pieces_of(1, max);
    let two = pieces_of(2, max);
    let mut s = two;
    let mut m: u64 = 0;
    let mut c: u64 = 1;
    for q in corners {
        let v = p.minus(q);
        let d = v.dot(v);
        let told = known(d, one, two, s);
        let n = points_of(told, d, max);
        if n > room - c {
            return room + 1;
        }
        c += n;
        s = learnt(told, n, m, max, s);
        m = n;
        p = q;
    }
    c
}

// The split path from k on; answers the place after it.
pub fn put_split(out: &mut [f64], k: usize, line: &[f64], max: f64) -> usize
    requires { k + length (flat (split_long (points line.now) max)) ≤ length out.old }
    ensures { (out.new ≡ put out.old k (flat (split_long (points line.now) max))) × (result ≡ k + length (flat (split_long (points line.now) max))) }
{
    let mut corners = Points::of(line);
    let Some(mut p) = corners.next() else {
        return k;
    };
    put_point(out, k, p);
    let one = pieces_of(1, max);
    let two = pieces_of(2, max);
    let mut s = two;
    let mut m: u64 = 0;
    let mut to = k + 2;
    let mut side: u64 = 0;
    for q in corners {
        let v = p.minus(q);
        let d = v.dot(v);
        let told = known(d, one, two, s);
        let n = points_of(told, d, max);
        to = put_side(out, to, side, p, q, max, n);
        s = learnt(told, n, m, max, s);
        m = n;
        p = q;
        side += 1;
    }
    to
}

// The split path to the front of out, or ROOM and nothing.
pub fn split_long(line: &[f64], max: f64, out: &mut [f64]) -> Result<u64, Refusal>
    ensures { (said_sewn result ≡ sewn (fitted (split_long (points line.now) max) (length out.old)) (length (split_long (points line.now) max))) × (out.new ≡ output (fitted (split_long (points line.now) max) (length out.old)) (flat (split_long (points line.now) max)) out.old) }
{
    let room = (out.len() / 2) as u64;
    let points = count_split(line, max, room);
    if points > room {
        return Err(Refusal::Room);
    }
    put_split(out, 0, line, max);
    Ok(points)
}
