// Bounds, clipping, cross stitch and meander: each answers document 01's number; the bounds are stored where that is DONE, the counts always, 0 after a refusal.
ghost use Rattle.std.specs.Prelude.{◌≡◌, length};
ghost use Rattle.patterns_rules.specs.Answers.{said_count, bounds_answer, clip_said, clip_points, clip_ends, cross_said, cross_points, cross_ends};
ghost use Rattle.patterns.specs.Said.{said_box, box_of};
ghost use Rattle.meander_rules.specs.Answers.{meander_said, meander_points, meander_ends, meander_wholes};
ghost use Rattle.exports.specs.Stored.{first_or, rule_of};

use exports::shape::rule_of;
use patterns_rules::{Bounds, Count};
use refusal::Refusal;

// The four sides to their places; a refusal leaves them.
fn store_bounds(
    r: Result<Bounds, Refusal>,
    left: &mut f64,
    top: &mut f64,
    right: &mut f64,
    bottom: &mut f64,
) -> u64
    ensures { (result ≡ (said_box (box_of r)).number) × (left.new ≡ first_or (λ v. v.left) left.old (said_box (box_of r)).values) × (top.new ≡ first_or (λ v. v.top) top.old (said_box (box_of r)).values) × (right.new ≡ first_or (λ v. v.right) right.old (said_box (box_of r)).values) × (bottom.new ≡ first_or (λ v. v.bottom) bottom.old (said_box (box_of r)).values) }
{
    match r {
        Ok(v) => {
            *left = v.left;
            *top = v.top;
            *right = v.right;
            *bottom = v.bottom;
            0
        }
        Err(e) => u64::from(e),
    }
}

// The answer's number; a refusal counts no line and no point.
fn store_lines(r: Result<Count, Refusal>, lines: &mut u64, points: &mut u64) -> u64
    ensures { (result ≡ (said_count r).answer) × (lines.new ≡ (said_count r).lines) × (points.new ≡ (said_count r).points) }
{
    match r {
        Ok(n) => {
            *lines = n.lines as u64;
            *points = n.points as u64;
            0
        }
        Err(e) => {
            *lines = 0;
            *points = 0;
            u64::from(e)
        }
    }
}

#[unsafe(no_mangle)]
pub extern "C" fn beahcerot_bounds(
    corners: &[f64],
    ends: &[usize],
    left: &mut f64,
    top: &mut f64,
    right: &mut f64,
    bottom: &mut f64,
) -> u64
    ensures { (result ≡ (bounds_answer corners.now ends.now).number) × (left.new ≡ first_or (λ v. v.left) left.old (bounds_answer corners.now ends.now).values) × (top.new ≡ first_or (λ v. v.top) top.old (bounds_answer corners.now ends.now).values) × (right.new ≡ first_or (λ v. v.right) right.old (bounds_answer corners.now ends.now).values) × (bottom.new ≡ first_or (λ v. v.bottom) bottom.old (bounds_answer corners.now ends.now).values) }
{
    store_bounds(patterns::bounds(corners, ends), left, top, right, bottom)
}

#[unsafe(no_mangle)]
pub extern "C" fn beahcerot_clip_inside(
    line: &[f64],
    corners: &[f64],
    ends: &[usize],
    rule: u64,
    out: &mut [f64],
    stops: &mut [usize],
    lines: &mut u64,
    points: &mut u64,
) -> u64
    ensures { (result ≡ (clip_said line.now corners.now ends.now (rule_of rule) (length out.old) (length stops.old)).answer) × (lines.new ≡ (clip_said line.now corners.now ends.now (rule_of rule) (length out.old) (length stops.old)).lines) × (points.new ≡ (clip_said line.now corners.now ends.now (rule_of rule) (length out.old) (length stops.old)).points) × (out.new ≡ clip_points line.now corners.now ends.now (rule_of rule) out.old stops.old) × (stops.new ≡ clip_ends line.now corners.now ends.now (rule_of rule) out.old stops.old) }
{
    let r = patterns::clip_inside(line, corners, ends, rule_of(rule), out, stops);
    store_lines(r, lines, points)
}

#[unsafe(no_mangle)]
pub extern "C" fn beahcerot_cross_stitch(
    corners: &[f64],
    ends: &[usize],
    rule: u64,
    cell: f64,
    out: &mut [f64],
    stops: &mut [usize],
    lines: &mut u64,
    points: &mut u64,
) -> u64
    ensures { (result ≡ (cross_said corners.now ends.now (rule_of rule) cell (length out.old) (length stops.old)).answer) × (lines.new ≡ (cross_said corners.now ends.now (rule_of rule) cell (length out.old) (length stops.old)).lines) × (points.new ≡ (cross_said corners.now ends.now (rule_of rule) cell (length out.old) (length stops.old)).points) × (out.new ≡ cross_points corners.now ends.now (rule_of rule) cell out.old stops.old) × (stops.new ≡ cross_ends corners.now ends.now (rule_of rule) cell out.old stops.old) }
{
    let r = patterns::cross_stitch(corners, ends, rule_of(rule), cell, out, stops);
    store_lines(r, lines, points)
}

#[unsafe(no_mangle)]
pub extern "C" fn beahcerot_meander(
    corners: &[f64],
    ends: &[usize],
    rule: u64,
    spacing: f64,
    len: f64,
    seed: u64,
    out: &mut [f64],
    stops: &mut [usize],
    wholes: &mut [usize],
    lines: &mut u64,
    points: &mut u64,
) -> u64
    ensures { (result ≡ (meander_said corners.now ends.now (rule_of rule) spacing len seed (length out.old) (length stops.old) (length wholes.old)).answer) × (lines.new ≡ (meander_said corners.now ends.now (rule_of rule) spacing len seed (length out.old) (length stops.old) (length wholes.old)).lines) × (points.new ≡ (meander_said corners.now ends.now (rule_of rule) spacing len seed (length out.old) (length stops.old) (length wholes.old)).points) × (out.new ≡ meander_points corners.now ends.now (rule_of rule) spacing len seed out.old stops.old wholes.old) × (stops.new ≡ meander_ends corners.now ends.now (rule_of rule) spacing len seed out.old stops.old wholes.old) × (wholes.new ≡ meander_wholes corners.now ends.now (rule_of rule) spacing len seed out.old stops.old wholes.old) }
{
    let r = meander::meander(
        corners,
        ends,
        rule_of(rule),
        spacing,
        len,
        seed,
        out,
        stops,
        wholes,
    );
    store_lines(r, lines, points)
}
