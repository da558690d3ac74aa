// The whole-number conversions that the source's `as` makes.
ghost use Rattle.std.specs.Prelude.{◌≡◌, pos};
ghost use Rattle.std.specs.Float.{binary64};
ghost use Rattle.std.specs.Float.Ieee.{of_int, to_signed, to_unsigned};

// `x as i64`: toward zero, to the nearer end where x is out of range, and 0 of a NaN.
pub fn to_i64(x: f64) -> i64
    ensures { result ≡ to_signed 63 x }
{
    if x < 9223372036854775808.0 {
        if x >= -9223372036854775808.0 {
            return std::num::truncating_f64_to_i64(x);
        }
        return -9223372036854775807 - 1;
    }
    if x != x {
        return 0;
    }
    9223372036854775807
}

// `x as u64`, and `x as usize`: toward zero, to the nearer end where x is out of range, and 0 of a NaN.
pub fn to_u64(x: f64) -> u64
    ensures { result ≡ to_unsigned 64 x }
{
    if x < 18446744073709551616.0 {
        if x > -1.0 {
            return std::num::truncating_f64_to_u64(x);
        }
        return 0;
    }
    if x != x {
        return 0;
    }
    18446744073709551615
}

// `n as f64`: one instruction where n has at most 53 digits.
pub fn of_i64(n: i64) -> f64
    ensures { result ≡ of_int binary64 n }
{
    if n <= 9007199254740992 {
        if n >= -9007199254740992 {
            return n as f64;
        }
    }
    std::num::nearest_i64_to_f64(n)
}

// `n as f64` of a count: one instruction where n has at most 53 digits.
pub fn of_u64(n: u64) -> f64
    ensures { result ≡ of_int binary64 (pos n) }
{
    if n <= 9007199254740992 {
        return n as f64;
    }
    std::num::nearest_u64_to_f64(n)
}
