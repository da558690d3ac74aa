// Pieces that take as many steps, told by their squared length: a line's pieces are mostly like the last ones, and ask for no root.
ghost use Rattle.std.specs.Prelude.{◌≡◌, ◌<◌, Float};
ghost use Rattle.polyline.specs.Cuts.{square_steps, Told};

use crate::cuts::{alike, square_steps};
use leaves::of_u64;

// Pieces whose squared length lies between `from` and `to` take n steps.
#[derive(Clone, Copy)]
pub struct Alike {
    pub from: f64,
    pub to: f64,
    pub n: u64,
}

// Which pieces take n steps: those a little longer than n - 1 times len, and a little shorter than n times; none where it isn't known.
pub fn pieces_of(n: u64, len: f64) -> Alike
    ensures { Told len result × (result.n ≡ n) }
{
    let most = of_u64(n) * len;
    let lo = (most - len) * 1.0000001 + 1e-9;
    let hi = most * 0.9999999;
    if n > 0 {
        if alike(lo, hi, len) == n {
            return Alike {
                from: lo * lo,
                to: hi * hi,
                n,
            };
        }
    }
    Alike {
        from: 0.0,
        to: 0.0,
        n,
    }
}

// The steps of a piece of squared length d that is like s; otherwise 0.
fn like(d: f64, s: Alike) -> u64
    ensures { (len : Float) → Told len s → 0 < result → result ≡ square_steps d len }
{
    if s.from < d {
        if d < s.to {
            return s.n;
        }
    }
    0
}

// The larger of k and what s tells: both are the steps, or 0. Which of them knows can't be guessed, so no branch hangs on it.
fn also(k: u64, d: f64, s: Alike) -> u64
    ensures { (len : Float) → Told len s → (0 < k → k ≡ square_steps d len) → 0 < result → result ≡ square_steps d len }
{
    let n = like(d, s);
    if k < n {
        return n;
    }
    k
}

// The steps of a piece of squared length d that is like one of these; otherwise 0.
pub fn known(d: f64, one: Alike, two: Alike, s: Alike) -> u64
    ensures { (len : Float) → Told len one → Told len two → Told len s → 0 < result → result ≡ square_steps d len }
{
    also(also(like(d, one), d, two), d, s)
}

// The steps of a piece of squared length d: k, or looked at anew where k is 0.
pub fn steps_of(k: u64, d: f64, len: f64) -> u64
    requires { 0 < k → k ≡ square_steps d len }
    ensures { result ≡ square_steps d len }
{
    if k > 0 {
        return k;
    }
    square_steps(d, len)
}

// What is told of other pieces, after a piece of n steps of which k was known: they are looked at where the piece before it took as many.
pub fn learnt(k: u64, n: u64, before: u64, len: f64, s: Alike) -> Alike
    requires { Told len s }
    ensures { Told len result }
{
    if k > 0 {
        return s;
    }
    if n != before {
        return s;
    }
    pieces_of(n, len)
}
