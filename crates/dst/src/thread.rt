// All points, from (0, 0) on, and the end record.
ghost use Rattle.std.specs.Prelude.{◌≡◌, true, ◌++◌, ◌+◌, ◌^◌, ◌<◌, ◌≤◌, length, drop};
ghost use Rattle.seqs.specs.Slices.{capped};
ghost use Rattle.geom.specs.Outline.{points as points_of};
ghost use Rattle.limits.specs.Limits.{good_numbers};
ghost use Rattle.dst.specs.Thread.{origin, thread, dst_bytes};

use crate::place::Place;
use crate::records::put_end;
use crate::way::{parts, put_way};
use geom::flat::Points;
use geom::sewing::add_within;

// How many records there are, the end counted, or room + 1 where they pass the room.
pub fn count(points: &[f64], room: u64) -> u64
    requires { (good_numbers points.now ≡ true) × (room < 2 ^ 63) }
    ensures { result ≡ capped room (1 + length (thread origin (points_of points.now))) }
{
    let mut c: u64 = 1;
    let mut from = Place::origin();
    for p in Points::of(points) {
        let to = Place::of(p);
        c = add_within(c, parts(from, to), room);
        from = to;
    }
    c
}

// The records to the front of out.
pub fn write(points: &[f64], out: &mut [u8])
    requires { (good_numbers points.now ≡ true) × (length (dst_bytes (points_of points.now)) ≤ length out.old) }
    ensures { out.new ≡ dst_bytes (points_of points.now) ++ drop (length (dst_bytes (points_of points.now))) out.old }
{
    let mut k = 0;
    let mut from = Place::origin();
    for p in Points::of(points) {
        let to = Place::of(p);
        k = put_way(out, k, from, to);
        from = to;
    }
    put_end(out, k);
}
