// A job filled: from its bytes to the points of its sections, with every refusal on the way; a version 2 job (request [6]) to those of both fills.
#![tactic(auto)]

ghost use Rattle.std.specs.Prelude.{◌≡◌, length};
ghost use Rattle.jobs.specs.Job.{parsed, corners as Job·corners, ends as Job·ends, left as Job·left};
ghost use Rattle.tatami.specs.Left.{said_filled, left};
ghost use Rattle.desk.specs.Desk.{job_left};

pub mod two;

use jobs::parse;
use refusal::Refusal;
use tatami::{Filled, tatami};

// The job's outline goes to the front of `corners` and `ends`, then `tatami` is called with it. 2,048 corners' floats and 255 ends are room for every job.
pub fn fill_job(
    bytes: &[u8],
    corners: &mut [f64],
    ends: &mut [usize],
    points: &mut [f64],
    stops: &mut [usize],
    floats: &mut [f64],
    wholes: &mut [usize],
) -> Result<Filled, Refusal>
    ensures wholes_after { left (said_filled result) points.new stops.new floats.new wholes.new ≡ job_left bytes.now (length corners.old) (length ends.old) points.old stops.old floats.old wholes.old }
    ensures corners_after { corners.new ≡ Job·left (parsed bytes.now (length corners.old) (length ends.old)) (Job·corners bytes.now) corners.old }
    ensures ends_after { ends.new ≡ Job·left (parsed bytes.now (length corners.old) (length ends.old)) (Job·ends bytes.now) ends.old }
{
    let j = parse(bytes, corners, ends)?;
    let n = 2 * j.corners;
    tatami(
        &corners[..n],
        &ends[..j.rings],
        j.rule,
        j.settings,
        j.stagger,
        j.bottom_up,
        points,
        stops,
        floats,
        wholes,
    )
}
