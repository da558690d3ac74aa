// Request [9]'s call: a wandering line for backgrounds. The first check that applies answers, and a refusal writes nothing.
#![tactic(auto, unfolding(meander_rules::specs::Answers::meander_refusal, meander_rules::specs::Answers::meander_said, meander_rules::specs::Answers::meander_points, meander_rules::specs::Answers::meander_ends, meander_rules::specs::Answers::meander_wholes, patterns_rules::specs::Answers::said_lines, patterns_rules::specs::Answers::left_points, patterns_rules::specs::Answers::left_ends))]

ghost use Rattle.std.specs.Prelude.{◌≡◌, length};
ghost use Rattle.patterns_rules.specs.Answers.{said_count};
ghost use Rattle.meander_rules.specs.Answers.{meander_said, meander_points, meander_ends, meander_wholes};

mod grid;
mod sewing;

use grid::lattice_of;
use limits::{good_len, good_numbers, good_spacing, outline};
use outlines::FillRule;
use patterns_rules::Count;
use refusal::{Refusal, unless};
use sewing::on_lattice;

// Lines that wander over the outline, through every grid point inside that they can reach: their points to `out`, x before y, and where each ends, in points, to `stops`.
pub fn meander(
    corners: &[f64],
    ends: &[usize],
    rule: FillRule,
    spacing: f64,
    len: f64,
    seed: u64,
    out: &mut [f64],
    stops: &mut [usize],
    wholes: &mut [usize],
) -> Result<Count, Refusal>
    ensures { (said_count result ≡ meander_said corners.now ends.now rule spacing len seed (length out.old) (length stops.old) (length wholes.old)) × (out.new ≡ meander_points corners.now ends.now rule spacing len seed out.old stops.old wholes.old) × (stops.new ≡ meander_ends corners.now ends.now rule spacing len seed out.old stops.old wholes.old) × (wholes.new ≡ meander_wholes corners.now ends.now rule spacing len seed out.old stops.old wholes.old) }
{
    let o = outline(corners, ends)?;
    unless(Refusal::Number, good_numbers(corners))?;
    unless(Refusal::Setting, good_spacing(spacing))?;
    unless(Refusal::Setting, good_len(len))?;
    let g = lattice_of(corners, spacing);
    on_lattice(o, rule, g, len, seed, out, stops, wholes)
}
