// The number leaves. `beahcerot_NAME` takes every f64; `beahcerot_leaf_NAME` answers document 01's number and stores the value where that is DONE.
ghost use Rattle.std.specs.Prelude.{◌≡◌, pos};
ghost use Rattle.std.specs.Float.{binary64};
ghost use Rattle.std.specs.Float.Ieee.{of_int, to_signed, to_unsigned};
ghost use Rattle.numbers.specs.Root.{root};
ghost use Rattle.numbers.specs.Whole.{floor, ceil};
ghost use Rattle.numbers.specs.Order.{before, smaller, larger, magnitude};
ghost use Rattle.refusal.specs.Refusal.{said};
ghost use Rattle.leaves.specs.Answer.{place, root_answer, floor_answer, ceil_answer, magnitude_answer, smaller_answer, larger_answer, order_answer};
ghost use Rattle.exports.specs.Stored.{stored};

use leaves::checked;
use refusal::Refusal;
use std::cmp::Ordering;

#[unsafe(no_mangle)]
pub extern "C" fn beahcerot_root(x: f64) -> f64
    ensures { result ≡ root x }
{
    leaves::root(x)
}

#[unsafe(no_mangle)]
pub extern "C" fn beahcerot_floor(x: f64) -> f64
    ensures { result ≡ floor x }
{
    leaves::floor(x)
}

#[unsafe(no_mangle)]
pub extern "C" fn beahcerot_ceil(x: f64) -> f64
    ensures { result ≡ ceil x }
{
    leaves::ceil(x)
}

#[unsafe(no_mangle)]
pub extern "C" fn beahcerot_smaller(a: f64, b: f64) -> f64
    ensures { result ≡ smaller a b }
{
    leaves::smaller(a, b)
}

#[unsafe(no_mangle)]
pub extern "C" fn beahcerot_larger(a: f64, b: f64) -> f64
    ensures { result ≡ larger a b }
{
    leaves::larger(a, b)
}

#[unsafe(no_mangle)]
pub extern "C" fn beahcerot_magnitude(x: f64) -> f64
    ensures { result ≡ magnitude x }
{
    leaves::magnitude(x)
}

#[unsafe(no_mangle)]
pub extern "C" fn beahcerot_before(a: f64, b: f64) -> bool
    ensures { result ≡ before a b }
{
    leaves::before(a, b)
}

#[unsafe(no_mangle)]
pub extern "C" fn beahcerot_to_i64(x: f64) -> i64
    ensures { result ≡ to_signed 63 x }
{
    leaves::to_i64(x)
}

#[unsafe(no_mangle)]
pub extern "C" fn beahcerot_to_u64(x: f64) -> u64
    ensures { result ≡ to_unsigned 64 x }
{
    leaves::to_u64(x)
}

#[unsafe(no_mangle)]
pub extern "C" fn beahcerot_of_i64(n: i64) -> f64
    ensures { result ≡ of_int binary64 n }
{
    leaves::of_i64(n)
}

#[unsafe(no_mangle)]
pub extern "C" fn beahcerot_of_u64(n: u64) -> f64
    ensures { result ≡ of_int binary64 (pos n) }
{
    leaves::of_u64(n)
}

// The answer's number; a value goes to its place, a refusal leaves it.
pub fn store<T: Copy>(r: Result<T, Refusal>, place: &mut T) -> u64
    ensures { (result ≡ (said r).number) × (place.new ≡ stored (said r) place.old) }
{
    match r {
        Ok(v) => {
            *place = v;
            0
        }
        Err(e) => u64::from(e),
    }
}

#[unsafe(no_mangle)]
pub extern "C" fn beahcerot_leaf_root(x: f64, value: &mut f64) -> u64
    ensures { (result ≡ (root_answer x).number) × (value.new ≡ stored (root_answer x) value.old) }
{
    store(checked::root(x), value)
}

#[unsafe(no_mangle)]
pub extern "C" fn beahcerot_leaf_floor(x: f64, value: &mut f64) -> u64
    ensures { (result ≡ (floor_answer x).number) × (value.new ≡ stored (floor_answer x) value.old) }
{
    store(checked::floor(x), value)
}

#[unsafe(no_mangle)]
pub extern "C" fn beahcerot_leaf_ceil(x: f64, value: &mut f64) -> u64
    ensures { (result ≡ (ceil_answer x).number) × (value.new ≡ stored (ceil_answer x) value.old) }
{
    store(checked::ceil(x), value)
}

#[unsafe(no_mangle)]
pub extern "C" fn beahcerot_leaf_magnitude(x: f64, value: &mut f64) -> u64
    ensures { (result ≡ (magnitude_answer x).number) × (value.new ≡ stored (magnitude_answer x) value.old) }
{
    store(checked::magnitude(x), value)
}

#[unsafe(no_mangle)]
pub extern "C" fn beahcerot_leaf_smaller(a: f64, b: f64, value: &mut f64) -> u64
    ensures { (result ≡ (smaller_answer a b).number) × (value.new ≡ stored (smaller_answer a b) value.old) }
{
    store(checked::smaller(a, b), value)
}

#[unsafe(no_mangle)]
pub extern "C" fn beahcerot_leaf_larger(a: f64, b: f64, value: &mut f64) -> u64
    ensures { (result ≡ (larger_answer a b).number) × (value.new ≡ stored (larger_answer a b) value.old) }
{
    store(checked::larger(a, b), value)
}

// 0 before, 1 the same, 2 after.
fn place_of(o: Ordering) -> u64
    ensures { result ≡ place o }
{
    match o {
        Ordering::Less => 0,
        Ordering::Equal => 1,
        Ordering::Greater => 2,
    }
}

#[unsafe(no_mangle)]
pub extern "C" fn beahcerot_leaf_order(a: f64, b: f64, place: &mut u64) -> u64
    ensures { (result ≡ (order_answer a b).number) × (place.new ≡ stored (order_answer a b) place.old) }
{
    store(checked::order(a, b).map(place_of), place)
}
