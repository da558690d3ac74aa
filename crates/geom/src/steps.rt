// A way cut in equal steps.
ghost use Rattle.std.specs.Prelude.{◌≡◌};
ghost use Rattle.geom.specs.Steps.{steps, along};

use crate::point::P;
use leaves::{ceil, larger, of_u64, to_u64};

// How many steps of at most len a length d takes: one or more.
pub fn steps(d: f64, len: f64) -> u64
    ensures { result ≡ steps d len }
{
    to_u64(larger(ceil(d / len), 1.0))
}

// Where step i of n ends on the way from a to b.
pub fn along(a: P, b: P, n: u64, i: u64) -> P
    ensures { result ≡ along a b n i }
{
    a.lerp(b, of_u64(i) / of_u64(n))
}
