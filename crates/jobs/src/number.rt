// Numbers in a job's bytes, big-endian.
ghost use Rattle.std.specs.Prelude.{◌≡◌, ◌+◌, ◌*◌, ◌^◌, ◌≤◌, ◌<◌, length, drop};
ghost use Rattle.jobs.specs.Job.{number, float, count};

// kept (6): no plainer: the framing of a job is told by places from its front (60, 97, 8, 28), and the definition `number at n s` takes them so
// The number in the n bytes at a place.
pub fn number_at(s: &[u8], at: usize, n: usize) -> u64
    requires { (at + n ≤ length s.now) × (n ≤ 8) }
    ensures { (result ≡ number at n s.now) × (result < 2 ^ (8 * n)) }
{
    let mut v: u64 = 0;
    for i in 0..n {
        v = v * 256 + u64::from(s[at + i]);
    }
    v
}

// The float whose 64 bits stand at a place.
pub fn float_at(s: &[u8], at: usize) -> f64
    requires { at + 8 ≤ length s.now }
    ensures { result ≡ float at s.now }
{
    leaves::of_bits(number_at(s, at, 8))
}

// The corner count of the ring at a place.
pub fn count_at(s: &[u8], at: usize) -> usize
    requires { at + 2 ≤ length s.now }
    ensures { (result ≡ count (drop at s.now)) × (result < 65536) }
{
    number_at(s, at, 2) as usize
}
