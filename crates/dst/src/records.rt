// A record: three bytes, with a move in balanced ternary, two bits to a digit, and what kind it is. A move comes lifted by 121.
ghost use Rattle.std.specs.Prelude.{◌≡◌, ◌+◌, ◌<◌, ◌≤◌, length};
ghost use Rattle.seqs.specs.Slices.{put};
ghost use Rattle.dst.specs.Records.{plus, minus, lower, third, kind_bits, bytes_of, end_record};

#[derive(Clone, Copy)]
pub enum Kind {
    Stitch,
    Jump,
}

// Whether the weight is added.
fn plus(w: u64, t: u64) -> u64
    requires { 0 < w }
    ensures { (result ≡ plus w t) × (result ≤ 1) }
{
    u64::from(t / w % 3 == 2)
}

// Whether it is taken off.
fn minus(w: u64, t: u64) -> u64
    requires { 0 < w }
    ensures { (result ≡ minus w t) × (result ≤ 1) }
{
    u64::from(t / w % 3 == 0)
}

// The first byte with the weights 1 and 9, the second with 3 and 27.
fn lower(lo: u64, hi: u64, x: u64, y: u64) -> u8
    requires { (0 < lo) × (0 < hi) }
    ensures { result ≡ lower lo hi x y }
{
    let a = plus(lo, x) + 2 * minus(lo, x) + 4 * plus(hi, x) + 8 * minus(hi, x);
    let b = 16 * minus(hi, y) + 32 * plus(hi, y) + 64 * minus(lo, y) + 128 * plus(lo, y);
    (a + b) as u8
}

fn kind_bits(k: Kind) -> u64
    ensures { (result ≡ kind_bits k) × (result ≤ 192) }
{
    match k {
        Kind::Stitch => 0,
        Kind::Jump => 128,
    }
}

fn third(k: Kind, x: u64, y: u64) -> u8
    ensures { result ≡ third k x y }
{
    let a = 3 + 4 * plus(81, x) + 8 * minus(81, x);
    let b = 16 * minus(81, y) + 32 * plus(81, y);
    (a + b + kind_bits(k)) as u8
}

// kept (6): no plainer: records go on at the place where the one before them ends
// The record from `at` on.
pub fn put_record(out: &mut [u8], at: usize, k: Kind, x: u64, y: u64)
    requires { at + 3 ≤ length out.old }
    ensures { out.new ≡ put out.old at (bytes_of k x y) }
{
    out[at] = lower(1, 9, x, y);
    out[at + 1] = lower(3, 27, x, y);
    out[at + 2] = third(k, x, y);
}

pub fn put_end(out: &mut [u8], at: usize)
    requires { at + 3 ≤ length out.old }
    ensures { out.new ≡ put out.old at end_record }
{
    out[at] = 0;
    out[at + 1] = 0;
    out[at + 2] = 243;
}
