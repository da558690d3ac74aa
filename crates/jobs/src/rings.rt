// The rings of a job whose framing is good, written to lent slices.
ghost use Rattle.std.specs.Prelude.{◌≡◌, ◌+◌, ◌*◌, ◌≤◌, length, drop};
ghost use Rattle.jobs.specs.Job.{head, floats, ends_from, corners_from, front};
ghost use Rattle.jobs.specs.Framed.{Framed};

use crate::frame::HEAD;
use crate::number::{count_at, float_at};

// Where each ring ends, counted in corners.
pub fn write_ends(s: &[u8], rings: usize, ends: &mut [usize])
    requires { Framed rings s.now × (rings ≤ length ends.old) }
    ensures { ends.new ≡ front (ends_from rings 0 (drop head s.now)) ends.old }
{
    let mut at = HEAD;
    let mut n = 0;
    for i in 0..rings {
        let c = count_at(s, at);
        n += c;
        at += 2 + 16 * c;
        ends[i] = n;
    }
}

// kept (6): no plainer: a place in the job's bytes, as in number
// The n floats at a place.
fn write_floats(s: &[u8], at: usize, n: usize, out: &mut [f64])
    requires { (at + 8 * n ≤ length s.now) × (n ≤ length out.old) }
    ensures { out.new ≡ front (floats n (drop at s.now)) out.old }
{
    for i in 0..n {
        out[i] = float_at(s, at + 8 * i);
    }
}

// The corners of all rings, x before y.
pub fn write_corners(s: &[u8], rings: usize, corners: &mut [f64])
    requires { Framed rings s.now × (length (corners_from rings (drop head s.now)) ≤ length corners.old) }
    ensures { corners.new ≡ front (corners_from rings (drop head s.now)) corners.old }
{
    let mut at = HEAD;
    let mut n = 0;
    for _ in 0..rings {
        let c = count_at(s, at);
        let k = 2 * n;
        write_floats(s, at + 2, 2 * c, &mut corners[k..]);
        n += c;
        at += 2 + 16 * c;
    }
}
