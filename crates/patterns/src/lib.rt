// Document 01's face of patterns.rs: bounds, clipping and cross stitch. The first check that applies answers, and a refusal writes nothing.
#![tactic(auto, unfolding(patterns_rules::specs::Answers::bounds_answer, patterns_rules::specs::Answers::clip_refusal, patterns_rules::specs::Answers::clip_said, patterns_rules::specs::Answers::clip_points, patterns_rules::specs::Answers::clip_ends, patterns_rules::specs::Answers::cross_refusal, patterns_rules::specs::Answers::cross_said, patterns_rules::specs::Answers::cross_points, patterns_rules::specs::Answers::cross_ends, patterns_rules::specs::Answers::said_lines, patterns_rules::specs::Answers::left_points, patterns_rules::specs::Answers::left_ends))]

ghost use Rattle.std.specs.Prelude.{◌≡◌, length};
ghost use Rattle.patterns_rules.specs.Answers.{said_count, bounds_answer, clip_said, clip_points, clip_ends, cross_said, cross_points, cross_ends};
ghost use Rattle.patterns.specs.Said.{box_of, said_box};

mod badge;

use badge::on_grid;
use cross::{Badge, grid_of};
use limits::{MOST_CELLS, good_cell, good_line, good_numbers, outline};
use outlines::FillRule;
use patterns_rules::{Bounds, Count};
use refusal::{Refusal, unless};

// The bounds of an outline.
pub fn bounds(corners: &[f64], ends: &[usize]) -> Result<Bounds, Refusal>
    ensures { said_box (box_of result) ≡ bounds_answer corners.now ends.now }
{
    let o = outline(corners, ends)?;
    unless(Refusal::Number, good_numbers(o.corners))?;
    Ok(cross::bounds(o.corners))
}

// The parts of a line inside an outline: their points to `out`, x before y, and where each ends, in points, to `stops`.
pub fn clip_inside(
    line: &[f64],
    corners: &[f64],
    ends: &[usize],
    rule: FillRule,
    out: &mut [f64],
    stops: &mut [usize],
) -> Result<Count, Refusal>
    ensures { (said_count result ≡ clip_said line.now corners.now ends.now rule (length out.old) (length stops.old)) × (out.new ≡ clip_points line.now corners.now ends.now rule out.old stops.old) × (stops.new ≡ clip_ends line.now corners.now ends.now rule out.old stops.old) }
{
    unless(Refusal::Layout, good_line(line))?;
    let laid = outline(corners, ends)?;
    unless(Refusal::Number, good_numbers(line))?;
    unless(Refusal::Number, good_numbers(corners))?;
    clip::clip_inside(line, laid, rule, out, stops)
}

// An X in every cell whose centre is inside: rows of half-crosses out and back to `out`, and where each ends, in points, to `stops`.
pub fn cross_stitch(
    corners: &[f64],
    ends: &[usize],
    rule: FillRule,
    cell: f64,
    out: &mut [f64],
    stops: &mut [usize],
) -> Result<Count, Refusal>
    ensures { (said_count result ≡ cross_said corners.now ends.now rule cell (length out.old) (length stops.old)) × (out.new ≡ cross_points corners.now ends.now rule cell out.old stops.old) × (stops.new ≡ cross_ends corners.now ends.now rule cell out.old stops.old) }
{
    let laid = outline(corners, ends)?;
    unless(Refusal::Number, good_numbers(corners))?;
    unless(Refusal::Setting, good_cell(cell))?;
    let grid = grid_of(corners, cell);
    unless(Refusal::Size, grid.columns <= MOST_CELLS)?;
    unless(Refusal::Size, grid.rows <= MOST_CELLS)?;
    let badge = Badge {
        outline: laid,
        rule,
        grid,
    };
    on_grid(badge, out, stops)
}
