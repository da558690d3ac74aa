// A version 2 job read from its bytes (request [6]).
ghost use Rattle.std.specs.Prelude.{◌≡◌, ◌≤◌, length};
ghost use Rattle.jobs.specs.Parsed2.{said_parsed2};
ghost use Rattle.jobs.specs.Job2.{head2, second_of, corners2, ends2, parsed2, left2};

use crate::frame::good_head2;
use crate::job::{Job, framed, settings_of};
use crate::number::number_at;
use refusal::{Refusal, unless};
use rules::Settings;

// What is the second fill's own; cosine and sine are the first's.
#[derive(Clone, Copy)]
pub struct Second {
    pub bottom_up: bool,
    pub stagger: u64,
    pub settings: Settings,
}

fn second_of(s: &[u8]) -> Second
    requires { head2 ≤ length s.now }
    ensures { result ≡ second_of s.now }
{
    let stagger = number_at(s, 61, 4);
    let settings = settings_of(s, 65);
    Second {
        bottom_up: s[60] == 1,
        stagger,
        settings,
    }
}

// Reads a version 2 job, both fills, of which the first has the outline's counts: the rings stand 37 bytes farther than in a version 1 job.
pub fn parse2(
    bytes: &[u8],
    corners: &mut [f64],
    ends: &mut [usize],
) -> Result<(Job, Second), Refusal>
    ensures value { said_parsed2 result ≡ parsed2 bytes.now (length corners.old) (length ends.old) }
    ensures corners_after { corners.new ≡ left2 (said_parsed2 result) (corners2 bytes.now) corners.old }
    ensures ends_after { ends.new ≡ left2 (said_parsed2 result) (ends2 bytes.now) ends.old }
{
    unless(Refusal::Layout, good_head2(bytes))?;
    let first = framed(bytes, &bytes[37..], corners, ends)?;
    Ok((first, second_of(bytes)))
}
