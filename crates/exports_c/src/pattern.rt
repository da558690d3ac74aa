// Bounds, clipping, cross stitch and meander. Each calls the function of its name in `exports_other::pattern`, which says what it does, and states its clauses.
ghost use Rattle.std.specs.Prelude.{◌≡◌, length};
ghost use Rattle.patterns_rules.specs.Answers.{bounds_answer, clip_said, clip_points, clip_ends, cross_said, cross_points, cross_ends};
ghost use Rattle.meander_rules.specs.Answers.{meander_said, meander_points, meander_ends, meander_wholes};
ghost use Rattle.exports.specs.Stored.{first_or, rule_of};

#[unsafe(no_mangle)]
pub extern "C" fn beahcerot_bounds(
    corners: &[f64],
    ends: &[usize],
    left: &mut f64,
    top: &mut f64,
    right: &mut f64,
    bottom: &mut f64,
) -> u64
    ensures { (result ≡ (bounds_answer corners.now ends.now).number) × (left.new ≡ first_or (λ v. v.left) left.old (bounds_answer corners.now ends.now).values) × (top.new ≡ first_or (λ v. v.top) top.old (bounds_answer corners.now ends.now).values) × (right.new ≡ first_or (λ v. v.right) right.old (bounds_answer corners.now ends.now).values) × (bottom.new ≡ first_or (λ v. v.bottom) bottom.old (bounds_answer corners.now ends.now).values) }
{
    exports_other::pattern::beahcerot_bounds(corners, ends, left, top, right, bottom)
}

#[unsafe(no_mangle)]
pub extern "C" fn beahcerot_clip_inside(
    line: &[f64],
    corners: &[f64],
    ends: &[usize],
    rule: u64,
    out: &mut [f64],
    stops: &mut [usize],
    lines: &mut u64,
    points: &mut u64,
) -> u64
    ensures { (result ≡ (clip_said line.now corners.now ends.now (rule_of rule) (length out.old) (length stops.old)).answer) × (lines.new ≡ (clip_said line.now corners.now ends.now (rule_of rule) (length out.old) (length stops.old)).lines) × (points.new ≡ (clip_said line.now corners.now ends.now (rule_of rule) (length out.old) (length stops.old)).points) × (out.new ≡ clip_points line.now corners.now ends.now (rule_of rule) out.old stops.old) × (stops.new ≡ clip_ends line.now corners.now ends.now (rule_of rule) out.old stops.old) }
{
    exports_other::pattern::beahcerot_clip_inside(
        line, corners, ends, rule, out, stops, lines, points,
    )
}

#[unsafe(no_mangle)]
pub extern "C" fn beahcerot_cross_stitch(
    corners: &[f64],
    ends: &[usize],
    rule: u64,
    cell: f64,
    out: &mut [f64],
    stops: &mut [usize],
    lines: &mut u64,
    points: &mut u64,
) -> u64
    ensures { (result ≡ (cross_said corners.now ends.now (rule_of rule) cell (length out.old) (length stops.old)).answer) × (lines.new ≡ (cross_said corners.now ends.now (rule_of rule) cell (length out.old) (length stops.old)).lines) × (points.new ≡ (cross_said corners.now ends.now (rule_of rule) cell (length out.old) (length stops.old)).points) × (out.new ≡ cross_points corners.now ends.now (rule_of rule) cell out.old stops.old) × (stops.new ≡ cross_ends corners.now ends.now (rule_of rule) cell out.old stops.old) }
{
    exports_other::pattern::beahcerot_cross_stitch(
        corners, ends, rule, cell, out, stops, lines, points,
    )
}

#[unsafe(no_mangle)]
pub extern "C" fn beahcerot_meander(
    corners: &[f64],
    ends: &[usize],
    rule: u64,
    spacing: f64,
    len: f64,
    seed: u64,
    out: &mut [f64],
    stops: &mut [usize],
    wholes: &mut [usize],
    lines: &mut u64,
    points: &mut u64,
) -> u64
    ensures { (result ≡ (meander_said corners.now ends.now (rule_of rule) spacing len seed (length out.old) (length stops.old) (length wholes.old)).answer) × (lines.new ≡ (meander_said corners.now ends.now (rule_of rule) spacing len seed (length out.old) (length stops.old) (length wholes.old)).lines) × (points.new ≡ (meander_said corners.now ends.now (rule_of rule) spacing len seed (length out.old) (length stops.old) (length wholes.old)).points) × (out.new ≡ meander_points corners.now ends.now (rule_of rule) spacing len seed out.old stops.old wholes.old) × (stops.new ≡ meander_ends corners.now ends.now (rule_of rule) spacing len seed out.old stops.old wholes.old) × (wholes.new ≡ meander_wholes corners.now ends.now (rule_of rule) spacing len seed out.old stops.old wholes.old) }
{
    exports_other::pattern::beahcerot_meander(
        corners, ends, rule, spacing, len, seed, out, stops, wholes, lines, points,
    )
}
