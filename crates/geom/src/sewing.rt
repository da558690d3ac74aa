// Points read from a slice and written to one, and counts of them.
ghost use Rattle.std.specs.Prelude.{◌≡◌, [], ◌∷◌, ◌+◌, ◌^◌, ◌<◌, length};
ghost use Rattle.seqs.specs.Slices.{put, capped};
ghost use Rattle.geom.specs.OutlineLaws.{corner_at};
ghost use Rattle.geom.specs.Sewing.{flat};

use crate::point::P;

// The corner at place i.
pub fn corner(s: &[f64], i: usize) -> P
    requires { i + 1 < length s.now }
    ensures { result ≡ corner_at s.now i }
{
    P {
        x: s[i],
        y: s[i + 1],
    }
}

// The point p from `at` on.
pub fn put_point(out: &mut [f64], at: usize, p: P)
    requires { at + 1 < length out.old }
    ensures { out.new ≡ put out.old at (flat (p ∷ [])) }
{
    out[at] = p.x;
    out[at + 1] = p.y;
}

// c + s, or room + 1 where that passes the room.
pub fn add_within(c: u64, s: u64, room: u64) -> u64
    requires { room < 2 ^ 63 }
    ensures { result ≡ capped room (c + s) }
{
    if c > room {
        return room + 1;
    }
    if s > room - c {
        return room + 1;
    }
    c + s
}
