// How many stitches a piece takes, and which pieces take as many.
ghost use Rattle.std.specs.Prelude.{◌≡◌, ◌<◌};
ghost use Rattle.std.specs.Float.Ieee.{lt};
ghost use Rattle.numbers.specs.Root.{root};
ghost use Rattle.geom.specs.Steps.{steps};
ghost use Rattle.polyline.specs.Cuts.{square_steps, between, Told};
ghost use Rattle.polyline.specs.Line.{shortest, piece_steps};

use geom::P;
use geom::steps::steps;
use leaves::quick::root;
use leaves::{of_u64, to_u64};

// How many steps every piece takes whose squared length lies between those of lo and hi, where both of these tell as many; otherwise 0.
pub fn alike(lo: f64, hi: f64, len: f64) -> u64
    ensures { 0 < result → Told len (between lo hi result) }
{
    if 1e-9 <= lo {
        if lo <= hi {
            if hi <= 1e9 {
                if 0.0 < len {
                    if len <= 1e9 {
                        let n = to_u64(hi / len);
                        if n < 4503599627370496 {
                            if of_u64(n) < lo / len {
                                return n + 1;
                            }
                        }
                    }
                }
            }
        }
    }
    0
}

// The steps of a squared length d, by its root.
pub fn root_steps(d: f64, len: f64) -> u64
    ensures { result ≡ steps (root d) len }
{
    steps(root(d), len)
}

// Whether a piece of squared length d is skipped.
fn skipped(d: f64) -> bool
    ensures { result ≡ lt (root d) shortest }
{
    if d > 1e-17 {
        return false;
    }
    root(d) < 1e-9
}

// The steps of a piece of squared length d: none where it is skipped.
pub fn square_steps(d: f64, len: f64) -> u64
    ensures { result ≡ square_steps d len }
{
    if skipped(d) {
        return 0;
    }
    root_steps(d, len)
}

// How many stitches lead from a to b: none where the piece is skipped.
pub fn piece_steps(a: P, b: P, len: f64) -> u64
    ensures { result ≡ piece_steps a b len }
{
    let v = a.minus(b);
    square_steps(v.dot(v), len)
}
