// Points rounded to whole units.
ghost use Rattle.std.specs.Prelude.{◌≡◌, true, ◌≤◌};
ghost use Rattle.limits.specs.Limits.{good_number, good_point};
ghost use Rattle.numbers.specs.Rounding.{rounded};
ghost use Rattle.dst.specs.Thread.{origin, rounded_point};
ghost use Rattle.dst.specs.Lifted.{lowered, standing};

use crate::place::Place;
use geom::P;
use leaves::{is_negative, nearest};

pub const LIFT: u64 = 100000;

// Halves away from zero.
pub fn lifted(x: f64) -> u64
    requires { good_number x ≡ true }
    ensures { (lowered result ≡ rounded x) × (result ≤ 200000) }
{
    let n = nearest(x);
    if is_negative(x) {
        return LIFT - n;
    }
    LIFT + n
}

impl Place {
    pub fn origin() -> Place
        ensures { standing result ≡ origin }
    {
        Place { x: LIFT, y: LIFT }
    }

    pub fn of(p: P) -> Place
        requires { good_point p ≡ true }
        ensures { standing result ≡ rounded_point p }
    {
        Place {
            x: lifted(p.x),
            y: lifted(p.y),
        }
    }
}
