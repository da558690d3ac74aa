// Patterns of 64 bits. There is one NaN: every NaN's pattern is read as it, and it is written as 7ff8000000000000.
ghost use Rattle.std.specs.Prelude.{◌≡◌, from_bits, to_bits};
ghost use Rattle.std.specs.Float.{binary64};

// The value of a pattern.
pub fn of_bits(b: u64) -> f64
    ensures { result ≡ from_bits binary64 b }
{
    if b % 9223372036854775808 > 9218868437227405312 {
        return 0.0 / 0.0;
    }
    f64::from_bits(b)
}

// The pattern of a value.
pub fn to_bits(x: f64) -> u64
    ensures { result ≡ to_bits binary64 x }
{
    if x != x {
        return 9221120237041090560;
    }
    f64::to_bits(x)
}
