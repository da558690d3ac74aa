// Running stitch along a line, back and forth: stroke.rs.
#![tactic(auto, unfolding(crate::specs::RunningAnswers::running_refusal, crate::specs::RunningAnswers::running_sewn, crate::specs::RunningAnswers::running_output))]

ghost use Rattle.std.specs.Prelude.{◌≡◌, length};
ghost use Rattle.refusal.specs.Sewn.{said_sewn};
ghost use Rattle.stroke.specs.RunningAnswers.{running_sewn, running_output};

pub mod one;
pub mod passes;
pub mod whole;

use limits::{good_len, good_line, good_numbers, good_passes};
use refusal::{Refusal, unless};

// Document 01's call: the first check that applies refuses, and a refusal writes nothing.
pub fn running(
    line: &[f64],
    closed: bool,
    len: f64,
    passes: u64,
    out: &mut [f64],
) -> Result<u64, Refusal>
    ensures { (said_sewn result ≡ running_sewn line.now closed len passes (length out.old)) × (out.new ≡ running_output line.now closed len passes out.old) }
{
    unless(Refusal::Layout, good_line(line))?;
    unless(Refusal::Number, good_numbers(line))?;
    unless(Refusal::Setting, good_len(len))?;
    unless(Refusal::Setting, good_passes(passes))?;
    whole::running(line, closed, len, passes, out)
}
