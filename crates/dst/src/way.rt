// The way from one rounded point to the next: one stitch, or jumps and a stitch where it is too long for one.
ghost use Rattle.std.specs.Prelude.{◌≡◌, ◌+◌, ◌<◌, ◌≤◌, ◌-ℤ◌, length};
ghost use Rattle.seqs.specs.Slices.{put};
ghost use Rattle.dst.specs.Thread.{parts, cut_at, cut as Thread·cut, kind_at, move, way, records_from};
ghost use Rattle.dst.specs.Lifted.{lowered, standing};

use crate::place::Place;
use crate::records::{Kind, put_record};

// How many records the way takes.
pub fn parts(a: Place, b: Place) -> u64
    ensures { (result ≡ parts (move (standing a) (standing b))) × (result ≤ 1700) }
{
    let x = a.x.abs_diff(b.x).div_ceil(121);
    let y = a.y.abs_diff(b.y).div_ceil(121);
    x.max(y).max(1)
}

// Where cut i of n lies on the way from a to b.
fn cut(a: u64, b: u64, n: u64, i: u64) -> u64
    requires { (a ≤ 200000) × (b ≤ 200000) × (0 < n) × (i ≤ n) × (n ≤ 1700) }
    ensures { (lowered result ≡ cut_at (lowered a) (lowered b -ℤ lowered a) n i) × (result ≤ 200000) }
{
    if a < b {
        return a + i * (b - a) / n;
    }
    a - i * (a - b) / n
}

// The same of places.
fn between(a: Place, b: Place, n: u64, i: u64) -> Place
    requires { (0 < n) × (i ≤ n) × (n ≤ 1700) }
    ensures { standing result ≡ Thread·cut (standing a) (move (standing a) (standing b)) n i }
{
    Place {
        x: cut(a.x, b.x, n, i),
        y: cut(a.y, b.y, n, i),
    }
}

// Each part but the last is a jump.
fn kind_at(i: u64, n: u64) -> Kind
    ensures { result ≡ kind_at i n }
{
    if i < n {
        return Kind::Jump;
    }
    Kind::Stitch
}

// Its records from `at` on; answers the place behind them.
pub fn put_way(out: &mut [u8], at: usize, a: Place, b: Place) -> usize
    requires { at + length (records_from (standing a) (way (standing a) (standing b))) ≤ length out.old }
    ensures { (out.new ≡ put out.old at (records_from (standing a) (way (standing a) (standing b)))) × (result ≡ at + length (records_from (standing a) (way (standing a) (standing b)))) }
{
    let n = parts(a, b);
    let mut k = at;
    let mut from = a;
    for i in 1..=n {
        let to = between(a, b, n, i);
        put_record(
            out,
            k,
            kind_at(i, n),
            121 + to.x - from.x,
            121 + to.y - from.y,
        );
        from = to;
        k += 3;
    }
    k
}
