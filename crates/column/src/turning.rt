// Points turned round in place: the last becomes the first.
ghost use Rattle.std.specs.Prelude.{◌≡◌, reverse, ◌+◌, ◌*◌, ◌%◌, ◌<◌, length};
ghost use Rattle.geom.specs.Outline.{points};
ghost use Rattle.geom.specs.Sewing.{flat};
ghost use Rattle.column.specs.Turned.{swapped};

use geom::sewing::{corner, put_point};

// The points at i and j, each to where the other stood.
fn swap_points(s: &mut [f64], i: usize, j: usize)
    requires { (length s.old % 2 ≡ 0) × (2 * i + 1 < length s.old) × (2 * j + 1 < length s.old) }
    ensures { s.new ≡ flat (swapped i j (points s.old)) }
{
    let p = corner(s, 2 * i);
    let q = corner(s, 2 * j);
    put_point(s, 2 * i, q);
    put_point(s, 2 * j, p);
}

// The points of a slice in the other order.
pub fn turn_round(s: &mut [f64])
    requires { length s.old % 2 ≡ 0 }
    ensures { s.new ≡ flat (reverse (points s.old)) }
{
    let n = s.len() / 2;
    for i in 0..n / 2 {
        swap_points(s, i, n - 1 - i);
    }
}
