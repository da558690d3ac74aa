// Document 01's calls of a satin column: the first check that applies answers, and a refusal writes nothing.
#![tactic(auto, unfolding(satinrules::specs::Calls::split_refusal, satinrules::specs::Calls::split_sewn, satinrules::specs::Calls::split_output, satinrules::specs::Calls::s_stitch_refusal, satinrules::specs::Calls::s_stitch_sewn, satinrules::specs::Calls::s_stitch_output))]

ghost use Rattle.std.specs.Prelude.{◌≡◌, length};
ghost use Rattle.refusal.specs.Sewn.{said_sewn};
ghost use Rattle.satinrules.specs.Calls.{split_sewn, split_output, s_stitch_sewn, s_stitch_output, pairs_sewn, pairs_output, pairs_work};

pub mod matched;
pub mod rails;
pub mod slices;
pub mod underlay;

use crate::matched::sewn_pairs;
use crate::rails::{accepted, few_corners};
use limits::{good_line, good_numbers, good_split, good_step};
use refusal::{Refusal, unless};

// A path with its long stitches split.
pub fn split_long(line: &[f64], max: f64, out: &mut [f64]) -> Result<u64, Refusal>
    ensures { (said_sewn result ≡ split_sewn line.now max (length out.old)) × (out.new ≡ split_output line.now max out.old) }
{
    unless(Refusal::Layout, good_line(line))?;
    unless(Refusal::Number, good_numbers(line))?;
    unless(Refusal::Setting, good_split(max))?;
    styles::split::split_long(line, max, out)
}

// A path with its stitches bent to an s.
pub fn s_stitch(line: &[f64], out: &mut [f64]) -> Result<u64, Refusal>
    ensures { (said_sewn result ≡ s_stitch_sewn line.now (length out.old)) × (out.new ≡ s_stitch_output line.now out.old) }
{
    unless(Refusal::Layout, good_line(line))?;
    unless(Refusal::Number, good_numbers(line))?;
    styles::bent::s_stitch(line, out)
}

// Matched points on both rails, about `step` apart: four numbers for each pair.
pub fn pairs(
    a: &[f64],
    b: &[f64],
    sync: &[f64],
    step: f64,
    work: &mut [f64],
    out: &mut [f64],
) -> Result<u64, Refusal>
    ensures { (said_sewn result ≡ pairs_sewn a.now b.now sync.now step (length work.old) (length out.old)) × (out.new ≡ pairs_output a.now b.now sync.now step (length work.old) out.old) × (work.new ≡ pairs_work a.now b.now sync.now step work.old (length out.old)) }
{
    accepted(a, b, sync)?;
    unless(Refusal::Setting, good_step(step))?;
    if few_corners(a, b) {
        work.fill(0.0);
        return Ok(0);
    }
    sewn_pairs(a, b, sync, step, work, out)
}
