// Document 01's face of the calls along a line: the first check that applies answers, and a refusal writes nothing.
#![tactic(auto, unfolding(crate::specs::LineAnswers::polyline_length_answer, crate::specs::LineAnswers::resample_refusal, crate::specs::LineAnswers::resample_sewn, crate::specs::LineAnswers::resample_output))]

ghost use Rattle.std.specs.Prelude.{◌≡◌, length};
ghost use Rattle.refusal.specs.Refusal.{said};
ghost use Rattle.refusal.specs.Sewn.{said_sewn};
ghost use Rattle.geometry.specs.LineAnswers.{polyline_length_answer, resample_sewn, resample_output};

use limits::{good_len, good_line, good_numbers};
use refusal::{Refusal, unless};

pub fn polyline_length(line: &[f64]) -> Result<f64, Refusal>
    ensures { said result ≡ polyline_length_answer line.now }
{
    unless(Refusal::Layout, good_line(line))?;
    unless(Refusal::Number, good_numbers(line))?;
    Ok(polyline::polyline_length(line))
}

pub fn resample_keep_corners(line: &[f64], len: f64, out: &mut [f64]) -> Result<u64, Refusal>
    ensures { (said_sewn result ≡ resample_sewn line.now len (length out.old)) × (out.new ≡ resample_output line.now len out.old) }
{
    unless(Refusal::Layout, good_line(line))?;
    unless(Refusal::Number, good_numbers(line))?;
    unless(Refusal::Setting, good_len(len))?;
    polyline::resample_keep_corners(line, len, out)
}
