// Points to DST records, for the machine: request [1].
#![tactic(auto, unfolding(crate::specs::Answers::dst_refusal, crate::specs::Answers::dst_written, crate::specs::Answers::dst_output))]

ghost use Rattle.std.specs.Prelude.{◌≡◌, length};
ghost use Rattle.refusal.specs.Sewn.{said_written};
ghost use Rattle.dst.specs.Answers.{dst_written, dst_output};

pub mod place;
pub mod records;
pub mod rounding;
pub mod thread;
pub mod way;

use limits::good_numbers;
use refusal::{Refusal, unless};

// How many bytes are written. The first check that applies refuses, and a refusal writes nothing.
pub fn dst(points: &[f64], out: &mut [u8]) -> Result<u64, Refusal>
    ensures { (said_written result ≡ dst_written points.now (length out.old)) × (out.new ≡ dst_output points.now out.old) }
{
    unless(Refusal::Layout, points.len() % 2 == 0)?;
    unless(Refusal::Number, good_numbers(points))?;
    let room = (out.len() / 3) as u64;
    let n = thread::count(points, room);
    if n > room {
        return Err(Refusal::Room);
    }
    thread::write(points, out);
    Ok(3 * n)
}
