// A line of corners: its length, and the stitches along it that keep every corner.
#![tactic(auto)]

ghost use Rattle.std.specs.Prelude.{◌≡◌, ◌+◌, ◌*◌, ◌^◌, ◌<◌, ◌≤◌, length};
ghost use Rattle.refusal.specs.Sewn.{said_sewn, sewn, output};
ghost use Rattle.seqs.specs.Slices.{put, capped};
ghost use Rattle.geom.specs.Outline.{points};
ghost use Rattle.geom.specs.Sewing.{flat, fitted};
ghost use Rattle.polyline.specs.Line.{polyline_length, step_ends, pieces_from, resample_keep_corners};

pub mod alike;
pub mod cuts;

use alike::{known, learnt, pieces_of, steps_of};
pub use cuts::piece_steps;
use geom::P;
use geom::flat::Points;
use geom::sewing::put_point;
use geom::steps::along;
use refusal::Refusal;

pub fn polyline_length(line: &[f64]) -> f64
    ensures { result ≡ polyline_length (points line.now) }
{
    let mut corners = Points::of(line);
    let Some(mut p) = corners.next() else {
        return 0.0;
    };
    let mut sum = 0.0;
    for q in corners {
        sum = sum + p.dist(q);
        p = q;
    }
    sum
}

// How many points the resampled line has, or room + 1 where they pass the room.
pub fn count_line(line: &[f64], len: f64, room: u64) -> u64
    requires { room < 2 ^ 63 }
    ensures { result ≡ capped room (length (resample_keep_corners (points line.now) len)) }
{
    let mut corners = Points::of(line);
    let Some(mut p) = corners.next() else {
        return 0;
    };
    if room == 0 {
        return 1;
    }
    let one = pieces_of(1, len);
    let two = pieces_of(2, len);
    let mut s = two;
    let mut m: u64 = 0;
    let mut c: u64 = 1;
    for q in corners {
        let v = p.minus(q);
        let d = v.dot(v);
        let k = known(d, one, two, s);
        let n = steps_of(k, d, len);
        if n > room - c {
            return room + 1;
        }
        c += n;
        s = learnt(k, n, m, len, s);
        m = n;
        p = q;
    }
    c
}

// The ends of the n steps from a to b, from k on; answers the place after them.
fn put_steps(out: &mut [f64], k: usize, a: P, b: P, n: u64) -> usize
    requires { (0 < n) × (k + 2 * n ≤ length out.old) }
    ensures { (out.new ≡ put out.old k (flat (step_ends a b n))) × (result ≡ k + 2 * n) }
{
    let mut at = k;
    for i in 1..n {
        put_point(out, at, along(a, b, n, i));
        at += 2;
    }
    put_point(out, at, b);
    at + 2
}

// The same, with no branch between one step and two: the half-way point, and the corner over it or after it.
pub fn put_piece(out: &mut [f64], k: usize, a: P, b: P, n: u64) -> usize
    requires { k + 2 * n ≤ length out.old }
    ensures { (out.new ≡ put out.old k (flat (step_ends a b n))) × (result ≡ k + 2 * n) }
{
    if n == 0 {
        return k;
    }
    if n > 2 {
        return put_steps(out, k, a, b, n);
    }
    put_point(out, k, a.lerp(b, 0.5));
    let last = k + 2 * (n as usize - 1);
    put_point(out, last, b);
    last + 2
}

// The pieces from p to each of the corners in turn, from k on; answers the place after them.
fn put_pieces(out: &mut [f64], k: usize, from: P, corners: Points, len: f64) -> usize
    requires { k + length (flat (pieces_from from corners len)) ≤ length out.old }
    ensures { (out.new ≡ put out.old k (flat (pieces_from from corners.entry len))) × (result ≡ k + length (flat (pieces_from from corners.entry len))) }
{
    let one = pieces_of(1, len);
    let two = pieces_of(2, len);
    let mut s = two;
    let mut m: u64 = 0;
    let mut at = k;
    let mut p = from;
    for q in corners {
        let v = p.minus(q);
        let d = v.dot(v);
        let told = known(d, one, two, s);
        let n = steps_of(told, d, len);
        at = put_piece(out, at, p, q, n);
        s = learnt(told, n, m, len, s);
        m = n;
        p = q;
    }
    at
}

// The resampled line from k on; answers the place after it.
pub fn put_line(out: &mut [f64], k: usize, line: &[f64], len: f64) -> usize
    requires { k + length (flat (resample_keep_corners (points line.now) len)) ≤ length out.old }
    ensures { (out.new ≡ put out.old k (flat (resample_keep_corners (points line.now) len))) × (result ≡ k + length (flat (resample_keep_corners (points line.now) len))) }
{
    let mut corners = Points::of(line);
    let Some(p) = corners.next() else {
        return k;
    };
    put_point(out, k, p);
    put_pieces(out, k + 2, p, corners, len)
}

// The resampled line to the front of out, or ROOM and nothing.
pub fn resample_keep_corners(line: &[f64], len: f64, out: &mut [f64]) -> Result<u64, Refusal>
    ensures { (said_sewn result ≡ sewn (fitted (resample_keep_corners (points line.now) len) (length out.old)) (length (resample_keep_corners (points line.now) len))) × (out.new ≡ output (fitted (resample_keep_corners (points line.now) len) (length out.old)) (flat (resample_keep_corners (points line.now) len)) out.old) }
{
    let room = (out.len() / 2) as u64;
    let points = count_line(line, len, room);
    if points > room {
        return Err(Refusal::Room);
    }
    put_line(out, 0, line, len);
    Ok(points)
}
