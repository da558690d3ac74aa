// The square root as one writes it out with a pencil, digit by digit: additions, subtractions, shifts and comparisons, and nothing else (request [4]).
ghost use Rattle.std.specs.Prelude.{◌≡◌, ◌+◌, ◌*◌, ◌^◌, ◌<◌, ◌≤◌, from_bits};
ghost use Rattle.std.specs.Float.{binary64};
ghost use Rattle.numbers.specs.Root.{near_root, root_units, root};

// The whole root of w * 2^52, and what is left of it.
#[derive(Clone, Copy)]
pub struct Rooted {
    pub root: u64,
    pub rest: u64,
}

// The digits of w come down two at a time, and then zeros: s is twice the root so far, x what is left, b the next digit's weight.
fn root_digits(w: u64) -> Rooted
    requires { w < 2 ^ 54 }
    ensures { (result.root * result.root + result.rest ≡ w * 2 ^ 52) × (result.rest ≤ 2 * result.root) × (result.root < 2 ^ 53) }
{
    let mut x = w;
    let mut s: u64 = 0;
    let mut c: u64 = 9007199254740992;
    let mut k: u64 = 53;
    while k > 0 {
        let b = c >> 1;
        let t = s + b;
        if x < t {
            x = x + x;
        } else {
            x = x + x - (t + t);
            s = t + b;
        }
        c = b;
        k -= 1;
    }
    Rooted {
        root: s >> 1,
        rest: x >> 1,
    }
}

// The whole number nearest to the root of w * 2^52.
fn near_root(w: u64) -> u64
    requires { (2 ^ 52 ≤ w) × (w < 2 ^ 54) }
    ensures { (result ≡ near_root 53 (w * 2 ^ 52)) × (2 ^ 52 ≤ result) × (result ≤ 2 ^ 53) }
{
    let r = root_digits(w);
    let root = r.root;
    let rest = r.rest;
    if rest <= root { root } else { root + 1 }
}

// The root of d * 2^a squares of the smallest value: an even power comes out of the root whole.
fn root_units(d: u64, a: u64) -> f64
    requires { (2 ^ 52 ≤ d) × (d < 2 ^ 53) × (52 ≤ a) × (a ≤ 4000) }
    ensures { result ≡ root_units (d * 2 ^ a) }
{
    let k = (a - 52) >> 1;
    if k + k + 52 == a {
        let q = near_root(d);
        f64::from_bits((k << 52) + q)
    } else {
        let q = near_root(d + d);
        f64::from_bits((k << 52) + q)
    }
}

// The root of the value whose pattern is b: above zero, and finite. A subnormal is brought up by the count of its leading zero bits.
fn root_pattern(b: u64) -> f64
    requires { (0 < b) × (b < 2047 * 2 ^ 52) }
    ensures { result ≡ root (from_bits binary64 b) }
{
    if b < 4503599627370496 {
        let z = u64::leading_zeros(b) - 11;
        root_units(b << z, 1074 - (z as u64))
    } else {
        let e = b >> 52;
        root_units(b - (e << 52) + 4503599627370496, e + 1073)
    }
}

// IEEE 754's squareRoot, rounded to nearest: a zero is its own root, and below zero there is none.
pub fn root(x: f64) -> f64
    ensures { result ≡ root x }
{
    if x != x {
        return x;
    }
    let b = f64::to_bits(x);
    if b < 9218868437227405312 {
        if 0 < b {
            return root_pattern(b);
        }
        return x;
    }
    if b == 9218868437227405312 {
        return x;
    }
    if b == 9223372036854775808 {
        return x;
    }
    0.0 / 0.0
}
