// All passes, for a line of any numbers.
ghost use Rattle.std.specs.Prelude.{◌≡◌, length};
ghost use Rattle.refusal.specs.Sewn.{said_sewn, sewn, output};
ghost use Rattle.geom.specs.Outline.{points};
ghost use Rattle.geom.specs.Sewing.{flat, fitted};
ghost use Rattle.stroke.specs.Running.{running};

use crate::one::{count_one, put_one};
use crate::passes::{count_passes, put_passes};
use refusal::Refusal;

// The passes to the front of out, or ROOM and nothing.
pub fn running(
    line: &[f64],
    closed: bool,
    len: f64,
    passes: u64,
    out: &mut [f64],
) -> Result<u64, Refusal>
    ensures { (said_sewn result ≡ sewn (fitted (running (points line.now) closed len passes) (length out.old)) (length (running (points line.now) closed len passes))) × (out.new ≡ output (fitted (running (points line.now) closed len passes) (length out.old)) (flat (running (points line.now) closed len passes)) out.old) }
{
    let room = (out.len() / 2) as u64;
    let n = count_one(line, closed, len, room);
    if n > room {
        return Err(Refusal::Room);
    }
    let points = count_passes(n, passes, room);
    if points > room {
        return Err(Refusal::Room);
    }
    put_one(out, line, closed, len);
    put_passes(out, n as usize, passes);
    Ok(points)
}
