// A job's framing, checked before anything is written.
ghost use Rattle.std.specs.Prelude.{◌≡◌, ◌+◌, ◌*◌, ◌≤◌, length, drop};
ghost use Rattle.jobs.specs.Job.{head, good_head, counted};
ghost use Rattle.jobs.specs.Job2.{good_head2};

use crate::number::{count_at, number_at};
use limits::MOST_CORNERS;

// The bytes before the rings.
pub const HEAD: usize = 60;

// Those of a version 2 job: the second fill's values are 37.
const HEAD2: usize = 97;

// The length, the version, and the bytes that are 0 or 1.
#[tactic(auto, unfolding(crate::specs::Job::good_head))]
pub fn good_head(s: &[u8], version: u8) -> bool
    ensures { result ≡ good_head version s.now }
{
    s.len() >= HEAD
        && number_at(s, 0, 4) == (s.len() - 4) as u64
        && s[4] == version
        && s[5] <= 1
        && s[6] <= 1
}

// The same of a version 2 job, with the second fill's byte that is 0 or 1.
#[tactic(auto, unfolding(crate::specs::Job2::good_head2))]
pub fn good_head2(s: &[u8]) -> bool
    ensures { result ≡ good_head2 s.now }
{
    s.len() >= HEAD2 && s[60] <= 1 && good_head(s, 2)
}

// The corners of so many rings, which stand behind the head and end the job; none where they are badly framed.
pub fn count_corners(s: &[u8], rings: usize) -> Option<usize>
    requires { head ≤ length s.now }
    ensures { result ≡ counted rings 0 (drop head s.now) }
{
    let mut at = HEAD;
    let mut n = 0;
    for _ in 0..rings {
        if s.len() - at < 2 {
            return None;
        }
        let c = count_at(s, at);
        if s.len() - at < 2 + 16 * c {
            return None;
        }
        if n + c > MOST_CORNERS {
            return None;
        }
        at += 2 + 16 * c;
        n += c;
    }
    if at < s.len() {
        return None;
    }
    Some(n)
}
