// The number leaves. Each calls the function of its name in `exports::number`, which says what it does, and states its clauses.
ghost use Rattle.std.specs.Prelude.{◌≡◌, pos};
ghost use Rattle.std.specs.Float.{binary64};
ghost use Rattle.std.specs.Float.Ieee.{of_int, to_signed, to_unsigned};
ghost use Rattle.numbers.specs.Root.{root};
ghost use Rattle.numbers.specs.Whole.{floor, ceil};
ghost use Rattle.numbers.specs.Order.{before, smaller, larger, magnitude};
ghost use Rattle.leaves.specs.Answer.{root_answer, floor_answer, ceil_answer, magnitude_answer, smaller_answer, larger_answer, order_answer};
ghost use Rattle.exports.specs.Stored.{stored};

#[unsafe(no_mangle)]
pub extern "C" fn beahcerot_root(x: f64) -> f64
    ensures { result ≡ root x }
{
    exports::number::beahcerot_root(x)
}

#[unsafe(no_mangle)]
pub extern "C" fn beahcerot_floor(x: f64) -> f64
    ensures { result ≡ floor x }
{
    exports::number::beahcerot_floor(x)
}

#[unsafe(no_mangle)]
pub extern "C" fn beahcerot_ceil(x: f64) -> f64
    ensures { result ≡ ceil x }
{
    exports::number::beahcerot_ceil(x)
}

#[unsafe(no_mangle)]
pub extern "C" fn beahcerot_smaller(a: f64, b: f64) -> f64
    ensures { result ≡ smaller a b }
{
    exports::number::beahcerot_smaller(a, b)
}

#[unsafe(no_mangle)]
pub extern "C" fn beahcerot_larger(a: f64, b: f64) -> f64
    ensures { result ≡ larger a b }
{
    exports::number::beahcerot_larger(a, b)
}

#[unsafe(no_mangle)]
pub extern "C" fn beahcerot_magnitude(x: f64) -> f64
    ensures { result ≡ magnitude x }
{
    exports::number::beahcerot_magnitude(x)
}

#[unsafe(no_mangle)]
pub extern "C" fn beahcerot_before(a: f64, b: f64) -> bool
    ensures { result ≡ before a b }
{
    exports::number::beahcerot_before(a, b)
}

#[unsafe(no_mangle)]
pub extern "C" fn beahcerot_to_i64(x: f64) -> i64
    ensures { result ≡ to_signed 63 x }
{
    exports::number::beahcerot_to_i64(x)
}

#[unsafe(no_mangle)]
pub extern "C" fn beahcerot_to_u64(x: f64) -> u64
    ensures { result ≡ to_unsigned 64 x }
{
    exports::number::beahcerot_to_u64(x)
}

#[unsafe(no_mangle)]
pub extern "C" fn beahcerot_of_i64(n: i64) -> f64
    ensures { result ≡ of_int binary64 n }
{
    exports::number::beahcerot_of_i64(n)
}

#[unsafe(no_mangle)]
pub extern "C" fn beahcerot_of_u64(n: u64) -> f64
    ensures { result ≡ of_int binary64 (pos n) }
{
    exports::number::beahcerot_of_u64(n)
}

#[unsafe(no_mangle)]
pub extern "C" fn beahcerot_leaf_root(x: f64, value: &mut f64) -> u64
    ensures { (result ≡ (root_answer x).number) × (value.new ≡ stored (root_answer x) value.old) }
{
    exports::number::beahcerot_leaf_root(x, value)
}

#[unsafe(no_mangle)]
pub extern "C" fn beahcerot_leaf_floor(x: f64, value: &mut f64) -> u64
    ensures { (result ≡ (floor_answer x).number) × (value.new ≡ stored (floor_answer x) value.old) }
{
    exports::number::beahcerot_leaf_floor(x, value)
}

#[unsafe(no_mangle)]
pub extern "C" fn beahcerot_leaf_ceil(x: f64, value: &mut f64) -> u64
    ensures { (result ≡ (ceil_answer x).number) × (value.new ≡ stored (ceil_answer x) value.old) }
{
    exports::number::beahcerot_leaf_ceil(x, value)
}

#[unsafe(no_mangle)]
pub extern "C" fn beahcerot_leaf_magnitude(x: f64, value: &mut f64) -> u64
    ensures { (result ≡ (magnitude_answer x).number) × (value.new ≡ stored (magnitude_answer x) value.old) }
{
    exports::number::beahcerot_leaf_magnitude(x, value)
}

#[unsafe(no_mangle)]
pub extern "C" fn beahcerot_leaf_smaller(a: f64, b: f64, value: &mut f64) -> u64
    ensures { (result ≡ (smaller_answer a b).number) × (value.new ≡ stored (smaller_answer a b) value.old) }
{
    exports::number::beahcerot_leaf_smaller(a, b, value)
}

#[unsafe(no_mangle)]
pub extern "C" fn beahcerot_leaf_larger(a: f64, b: f64, value: &mut f64) -> u64
    ensures { (result ≡ (larger_answer a b).number) × (value.new ≡ stored (larger_answer a b) value.old) }
{
    exports::number::beahcerot_leaf_larger(a, b, value)
}

#[unsafe(no_mangle)]
pub extern "C" fn beahcerot_leaf_order(a: f64, b: f64, place: &mut u64) -> u64
    ensures { (result ≡ (order_answer a b).number) × (place.new ≡ stored (order_answer a b) place.old) }
{
    exports::number::beahcerot_leaf_order(a, b, place)
}
