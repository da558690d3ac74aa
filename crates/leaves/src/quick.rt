// The root once more, for loops. A guess is tried by its exact square in whole numbers, so nothing has to be known of it;
// where neither the guess nor a neighbour is the root, the digits are written out.
ghost use Rattle.std.specs.Prelude.{◌≡◌, ℕ, ◌+◌, ◌*◌, ◌%◌, ◌^◌, ◌<◌, ◌≤◌, if◌then◌else◌, nat_lt};
ghost use Rattle.numbers.specs.Root.{near_root, root};

use crate::bits::of_bits;

// A number near the root of x, whose pattern is b: half of its exponent, two of Heron's steps in one and a third, with the
// factors that leave the least error. Nothing is promised of it.
fn guess(x: f64, b: u64) -> f64
    requires { b < 2 ^ 63 }
{
    let s = of_bits(b / 2 + 2303591209400008704);
    let t = s * s + x * 1.0606601717798212;
    let v = t / (s * 2.0602136336500206) + x * 2.0602135852631225 * s / t;
    v * 0.25 + x / v
}

// 1 where a is above b, otherwise 0.
fn above(a: u64, b: u64) -> u64
    ensures { (result ≡ (if nat_lt b a then 1 else 0)) × (result ≤ 1) }
{
    if a > b { 1 } else { 0 }
}

// Of q and its two neighbours the one nearest to the root of n, where e is 2^56 + n - q * q; 0 where none of them is.
fn beside(q: u64, e: u64) -> u64
    requires { (q < 2 ^ 53) × (e < 2 ^ 58) }
    ensures { (result ≤ q + 1) × ((n : ℕ) → e + q * q ≡ 2 ^ 56 + n → n < 4 ^ 53 → 0 < result → result ≡ near_root 53 n) }
{
    if e <= 72057594037927938 + 3 * q {
        if 72057594037927938 < e + 3 * q {
            return q + above(e, 72057594037927936 + q) + above(e + q, 72057594037927936) - 1;
        }
    }
    0
}

// q or a neighbour, if that is nearest to the root of w * 2^52, otherwise 0. The square of q is taken by halves of 26 digits.
fn tried(w: u64, q: u64) -> u64
    requires { w < 2 ^ 54 }
    ensures { (result ≤ 2 ^ 53) × (0 < result → result ≡ near_root 53 (w * 2 ^ 52)) }
{
    if q < 9007199254740992 {
        let h = q / 67108864;
        let l = q % 67108864;
        let high = h * h;
        if high <= w {
            let left = w - high;
            if left < 536870912 {
                let more = left * 67108864 + 1073741824;
                let mid = 2 * h * l;
                if mid <= more {
                    let rest = more - mid;
                    if rest < 4294967296 {
                        let low = l * l;
                        if low <= rest * 67108864 {
                            return beside(q, rest * 67108864 - low);
                        }
                    }
                }
            }
        }
    }
    0
}

// d, or twice d where one place more has to come out of the root whole.
fn evened(d: u64, e: u64) -> u64
    requires { (d < 2 ^ 53) × (e < 2 ^ 11) }
    ensures { (result ≡ d * 2 ^ ((e + 1021) % 2)) × (result < 2 ^ 54) }
{
    if e % 2 == 1 { d } else { d * 2 }
}

// IEEE 754's squareRoot, as `digits::root` gives it. Of the guess only the digits are taken: the exponent is known.
pub fn root(x: f64) -> f64
    ensures { result ≡ root x }
{
    if x == x {
        let b = f64::to_bits(x);
        if b >= 4503599627370496 {
            if b < 9218868437227405312 {
                let e = b / 4503599627370496;
                let w = evened(b % 4503599627370496 + 4503599627370496, e);
                let k = (e + 1021) / 2 * 4503599627370496;
                let g = guess(x, b);
                if g == g {
                    let q = tried(w, f64::to_bits(g) % 4503599627370496 + 4503599627370496);
                    if q > 0 {
                        return f64::from_bits(k + q);
                    }
                }
            }
        }
    }
    crate::digits::root(x)
}
