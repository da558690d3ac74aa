// The total order, -0 before +0, and what goes by it.
ghost use Rattle.std.specs.Prelude.{◌≡◌};
ghost use Rattle.numbers.specs.Order.{negative, finite, before, smaller, larger, magnitude};

// Whether the sign is set: of -0.0 too. A NaN has none.
pub fn is_negative(x: f64) -> bool
    ensures { result ≡ negative x }
{
    if x != x {
        return false;
    }
    f64::to_bits(x) >= 9223372036854775808
}

// Neither a NaN nor an infinity: the exponent's field is not all ones.
pub fn is_finite(x: f64) -> bool
    ensures { result ≡ finite x }
{
    if x != x {
        return false;
    }
    f64::to_bits(x) / 4503599627370496 % 2048 != 2047
}

// Whether a comes before b, with -0.0 before 0.0.
pub fn before(a: f64, b: f64) -> bool
    ensures { result ≡ before a b }
{
    if a < b {
        return true;
    }
    if a == b {
        if is_negative(a) {
            return !is_negative(b);
        }
        return false;
    }
    false
}

// The one that comes first; where one is a NaN, the other.
pub fn smaller(a: f64, b: f64) -> f64
    ensures { result ≡ smaller a b }
{
    if a != a {
        return b;
    }
    if before(b, a) { b } else { a }
}

// The one that comes last; where one is a NaN, the other.
pub fn larger(a: f64, b: f64) -> f64
    ensures { result ≡ larger a b }
{
    if a != a {
        return b;
    }
    if before(a, b) { b } else { a }
}

// The absolute value.
pub fn magnitude(x: f64) -> f64
    ensures { result ≡ magnitude x }
{
    if is_negative(x) { -x } else { x }
}
