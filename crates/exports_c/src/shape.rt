// Points, outlines and winding. Each calls the function of its name in `exports::shape`, which says what it does, and states its clauses.
ghost use Rattle.std.specs.Prelude.{◌≡◌};
ghost use Rattle.geometry.specs.Answers.{dot_answer, len_answer, dist_answer, norm_answer, perp_answer, rotate_answer, lerp_answer, cross_answer, winding_answer, point_inside_answer, segment_inside_answer};
ghost use Rattle.outlines.specs.Inside.{inside};
ghost use Rattle.geom.specs.Point.{point};
ghost use Rattle.exports.specs.Stored.{stored, stored_x, stored_y, stored_truth, bit, rule_of};

#[unsafe(no_mangle)]
pub extern "C" fn beahcerot_dot(ax: f64, ay: f64, bx: f64, by: f64, value: &mut f64) -> u64
    ensures { (result ≡ (dot_answer (point ax ay) (point bx by)).number) × (value.new ≡ stored (dot_answer (point ax ay) (point bx by)) value.old) }
{
    exports::shape::beahcerot_dot(ax, ay, bx, by, value)
}

#[unsafe(no_mangle)]
pub extern "C" fn beahcerot_len(x: f64, y: f64, value: &mut f64) -> u64
    ensures { (result ≡ (len_answer (point x y)).number) × (value.new ≡ stored (len_answer (point x y)) value.old) }
{
    exports::shape::beahcerot_len(x, y, value)
}

#[unsafe(no_mangle)]
pub extern "C" fn beahcerot_dist(ax: f64, ay: f64, bx: f64, by: f64, value: &mut f64) -> u64
    ensures { (result ≡ (dist_answer (point ax ay) (point bx by)).number) × (value.new ≡ stored (dist_answer (point ax ay) (point bx by)) value.old) }
{
    exports::shape::beahcerot_dist(ax, ay, bx, by, value)
}

#[unsafe(no_mangle)]
pub extern "C" fn beahcerot_cross(ax: f64, ay: f64, bx: f64, by: f64, value: &mut f64) -> u64
    ensures { (result ≡ (cross_answer (point ax ay) (point bx by)).number) × (value.new ≡ stored (cross_answer (point ax ay) (point bx by)) value.old) }
{
    exports::shape::beahcerot_cross(ax, ay, bx, by, value)
}

#[unsafe(no_mangle)]
pub extern "C" fn beahcerot_norm(x: f64, y: f64, px: &mut f64, py: &mut f64) -> u64
    ensures { (result ≡ (norm_answer (point x y)).number) × (px.new ≡ stored_x (norm_answer (point x y)) px.old) × (py.new ≡ stored_y (norm_answer (point x y)) py.old) }
{
    exports::shape::beahcerot_norm(x, y, px, py)
}

#[unsafe(no_mangle)]
pub extern "C" fn beahcerot_perp(x: f64, y: f64, px: &mut f64, py: &mut f64) -> u64
    ensures { (result ≡ (perp_answer (point x y)).number) × (px.new ≡ stored_x (perp_answer (point x y)) px.old) × (py.new ≡ stored_y (perp_answer (point x y)) py.old) }
{
    exports::shape::beahcerot_perp(x, y, px, py)
}

#[unsafe(no_mangle)]
pub extern "C" fn beahcerot_rotate(
    x: f64,
    y: f64,
    cos: f64,
    sin: f64,
    px: &mut f64,
    py: &mut f64,
) -> u64
    ensures { (result ≡ (rotate_answer (point x y) cos sin).number) × (px.new ≡ stored_x (rotate_answer (point x y) cos sin) px.old) × (py.new ≡ stored_y (rotate_answer (point x y) cos sin) py.old) }
{
    exports::shape::beahcerot_rotate(x, y, cos, sin, px, py)
}

#[unsafe(no_mangle)]
pub extern "C" fn beahcerot_lerp(
    ax: f64,
    ay: f64,
    bx: f64,
    by: f64,
    t: f64,
    px: &mut f64,
    py: &mut f64,
) -> u64
    ensures { (result ≡ (lerp_answer (point ax ay) (point bx by) t).number) × (px.new ≡ stored_x (lerp_answer (point ax ay) (point bx by) t) px.old) × (py.new ≡ stored_y (lerp_answer (point ax ay) (point bx by) t) py.old) }
{
    exports::shape::beahcerot_lerp(ax, ay, bx, by, t, px, py)
}

#[unsafe(no_mangle)]
pub extern "C" fn beahcerot_inside(rule: u64, winding: i64) -> u64
    ensures { result ≡ bit (inside (rule_of rule) winding) }
{
    exports::shape::beahcerot_inside(rule, winding)
}

#[unsafe(no_mangle)]
pub extern "C" fn beahcerot_winding(
    corners: &[f64],
    ends: &[usize],
    x: f64,
    y: f64,
    value: &mut i64,
) -> u64
    ensures { (result ≡ (winding_answer corners.now ends.now (point x y)).number) × (value.new ≡ stored (winding_answer corners.now ends.now (point x y)) value.old) }
{
    exports::shape::beahcerot_winding(corners, ends, x, y, value)
}

#[unsafe(no_mangle)]
pub extern "C" fn beahcerot_point_inside(
    corners: &[f64],
    ends: &[usize],
    rule: u64,
    x: f64,
    y: f64,
    value: &mut u64,
) -> u64
    ensures { (result ≡ (point_inside_answer corners.now ends.now (rule_of rule) (point x y)).number) × (value.new ≡ stored_truth (point_inside_answer corners.now ends.now (rule_of rule) (point x y)) value.old) }
{
    exports::shape::beahcerot_point_inside(corners, ends, rule, x, y, value)
}

#[unsafe(no_mangle)]
pub extern "C" fn beahcerot_segment_inside(
    corners: &[f64],
    ends: &[usize],
    rule: u64,
    ax: f64,
    ay: f64,
    bx: f64,
    by: f64,
    step: f64,
    value: &mut u64,
) -> u64
    ensures { (result ≡ (segment_inside_answer corners.now ends.now (rule_of rule) (point ax ay) (point bx by) step).number) × (value.new ≡ stored_truth (segment_inside_answer corners.now ends.now (rule_of rule) (point ax ay) (point bx by) step) value.old) }
{
    exports::shape::beahcerot_segment_inside(corners, ends, rule, ax, ay, bx, by, step, value)
}
