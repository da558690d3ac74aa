// Floor and ceiling, a zero keeping its operand's sign; and halves rounded away from zero.
ghost use Rattle.std.specs.Prelude.{◌≡◌, if◌then◌else◌};
ghost use Rattle.std.specs.Float.Ieee.{neg};
ghost use Rattle.numbers.specs.Whole.{whole_of, floor, ceil};
ghost use Rattle.numbers.specs.Rounding.{nearest_count};

use crate::cast::{of_u64, to_u64};
use crate::order::{is_negative, magnitude};

// v, or -v where s is set.
fn signed(s: bool, v: f64) -> f64
    ensures { result ≡ (if s then neg v else v) }
{
    if s { -v } else { v }
}

// The magnitude made whole, toward zero or away from it, with x's sign.
fn whole(x: f64, away: bool) -> f64
    ensures { result ≡ whole_of away x }
{
    let a = magnitude(x);
    if a < 9007199254740992.0 {
        let n = std::num::truncating_f64_to_u64(a);
        let t = of_u64(n);
        let s = is_negative(x);
        if away {
            if t < a {
                return signed(s, of_u64(n + 1));
            }
            return signed(s, t);
        }
        return signed(s, t);
    }
    x
}

// The whole number at or below x: x itself where it is not finite.
pub fn floor(x: f64) -> f64
    ensures { result ≡ floor x }
{
    whole(x, is_negative(x))
}

// The whole number at or above x: x itself where it is not finite.
pub fn ceil(x: f64) -> f64
    ensures { result ≡ ceil x }
{
    whole(x, !is_negative(x))
}

// The whole number nearest to the magnitude, halves up: twice it is exact, and is cut. From 2^53 on it is whole itself.
pub fn nearest(x: f64) -> u64
    ensures { result ≡ nearest_count x }
{
    let v = magnitude(x);
    if v < 9007199254740992.0 {
        return (to_u64(v + v) + 1) / 2;
    }
    to_u64(v)
}
