// Points, outlines and winding: each answers document 01's number, and stores the value where that is DONE.
ghost use Rattle.std.specs.Prelude.{◌≡◌};
ghost use Rattle.refusal.specs.Refusal.{said};
ghost use Rattle.geometry.specs.Answers.{dot_answer, len_answer, dist_answer, norm_answer, perp_answer, rotate_answer, lerp_answer, cross_answer, winding_answer, point_inside_answer, segment_inside_answer};
ghost use Rattle.outlines.specs.Inside.{inside};
ghost use Rattle.geom.specs.Point.{point};
ghost use Rattle.exports.specs.Stored.{stored, stored_x, stored_y, stored_truth, bit, rule_of};

use crate::number::store;
use geom::P;
use geometry::checked;
use outlines::FillRule;
use refusal::Refusal;

// A point goes to two places.
fn store_point(r: Result<P, Refusal>, px: &mut f64, py: &mut f64) -> u64
    ensures { (result ≡ (said r).number) × (px.new ≡ stored_x (said r) px.old) × (py.new ≡ stored_y (said r) py.old) }
{
    match r {
        Ok(p) => {
            *px = p.x;
            *py = p.y;
            0
        }
        Err(e) => u64::from(e),
    }
}

fn bit(b: bool) -> u64
    ensures { result ≡ bit b }
{
    if b { 1 } else { 0 }
}

fn store_truth(r: Result<bool, Refusal>, value: &mut u64) -> u64
    ensures { (result ≡ (said r).number) × (value.new ≡ stored_truth (said r) value.old) }
{
    store(r.map(bit), value)
}

pub fn rule_of(n: u64) -> FillRule
    ensures { result ≡ rule_of n }
{
    if n == 0 {
        return FillRule::NonZero;
    }
    FillRule::EvenOdd
}

#[unsafe(no_mangle)]
pub extern "C" fn beahcerot_dot(ax: f64, ay: f64, bx: f64, by: f64, value: &mut f64) -> u64
    ensures { (result ≡ (dot_answer (point ax ay) (point bx by)).number) × (value.new ≡ stored (dot_answer (point ax ay) (point bx by)) value.old) }
{
    store(checked::dot(P { x: ax, y: ay }, P { x: bx, y: by }), value)
}

#[unsafe(no_mangle)]
pub extern "C" fn beahcerot_len(x: f64, y: f64, value: &mut f64) -> u64
    ensures { (result ≡ (len_answer (point x y)).number) × (value.new ≡ stored (len_answer (point x y)) value.old) }
{
    store(checked::len(P { x, y }), value)
}

#[unsafe(no_mangle)]
pub extern "C" fn beahcerot_dist(ax: f64, ay: f64, bx: f64, by: f64, value: &mut f64) -> u64
    ensures { (result ≡ (dist_answer (point ax ay) (point bx by)).number) × (value.new ≡ stored (dist_answer (point ax ay) (point bx by)) value.old) }
{
    store(checked::dist(P { x: ax, y: ay }, P { x: bx, y: by }), value)
}

#[unsafe(no_mangle)]
pub extern "C" fn beahcerot_cross(ax: f64, ay: f64, bx: f64, by: f64, value: &mut f64) -> u64
    ensures { (result ≡ (cross_answer (point ax ay) (point bx by)).number) × (value.new ≡ stored (cross_answer (point ax ay) (point bx by)) value.old) }
{
    store(
        checked::cross(P { x: ax, y: ay }, P { x: bx, y: by }),
        value,
    )
}

#[unsafe(no_mangle)]
pub extern "C" fn beahcerot_norm(x: f64, y: f64, px: &mut f64, py: &mut f64) -> u64
    ensures { (result ≡ (norm_answer (point x y)).number) × (px.new ≡ stored_x (norm_answer (point x y)) px.old) × (py.new ≡ stored_y (norm_answer (point x y)) py.old) }
{
    store_point(checked::norm(P { x, y }), px, py)
}

#[unsafe(no_mangle)]
pub extern "C" fn beahcerot_perp(x: f64, y: f64, px: &mut f64, py: &mut f64) -> u64
    ensures { (result ≡ (perp_answer (point x y)).number) × (px.new ≡ stored_x (perp_answer (point x y)) px.old) × (py.new ≡ stored_y (perp_answer (point x y)) py.old) }
{
    store_point(checked::perp(P { x, y }), px, py)
}

#[unsafe(no_mangle)]
pub extern "C" fn beahcerot_rotate(
    x: f64,
    y: f64,
    cos: f64,
    sin: f64,
    px: &mut f64,
    py: &mut f64,
) -> u64
    ensures { (result ≡ (rotate_answer (point x y) cos sin).number) × (px.new ≡ stored_x (rotate_answer (point x y) cos sin) px.old) × (py.new ≡ stored_y (rotate_answer (point x y) cos sin) py.old) }
{
    store_point(checked::rotate(P { x, y }, cos, sin), px, py)
}

#[unsafe(no_mangle)]
pub extern "C" fn beahcerot_lerp(
    ax: f64,
    ay: f64,
    bx: f64,
    by: f64,
    t: f64,
    px: &mut f64,
    py: &mut f64,
) -> u64
    ensures { (result ≡ (lerp_answer (point ax ay) (point bx by) t).number) × (px.new ≡ stored_x (lerp_answer (point ax ay) (point bx by) t) px.old) × (py.new ≡ stored_y (lerp_answer (point ax ay) (point bx by) t) py.old) }
{
    store_point(
        checked::lerp(P { x: ax, y: ay }, P { x: bx, y: by }, t),
        px,
        py,
    )
}

#[unsafe(no_mangle)]
pub extern "C" fn beahcerot_inside(rule: u64, winding: i64) -> u64
    ensures { result ≡ bit (inside (rule_of rule) winding) }
{
    bit(rule_of(rule).inside(winding))
}

#[unsafe(no_mangle)]
pub extern "C" fn beahcerot_winding(
    corners: &[f64],
    ends: &[usize],
    x: f64,
    y: f64,
    value: &mut i64,
) -> u64
    ensures { (result ≡ (winding_answer corners.now ends.now (point x y)).number) × (value.new ≡ stored (winding_answer corners.now ends.now (point x y)) value.old) }
{
    store(checked::winding(corners, ends, P { x, y }), value)
}

#[unsafe(no_mangle)]
pub extern "C" fn beahcerot_point_inside(
    corners: &[f64],
    ends: &[usize],
    rule: u64,
    x: f64,
    y: f64,
    value: &mut u64,
) -> u64
    ensures { (result ≡ (point_inside_answer corners.now ends.now (rule_of rule) (point x y)).number) × (value.new ≡ stored_truth (point_inside_answer corners.now ends.now (rule_of rule) (point x y)) value.old) }
{
    store_truth(
        checked::point_inside(corners, ends, rule_of(rule), P { x, y }),
        value,
    )
}

#[unsafe(no_mangle)]
pub extern "C" fn beahcerot_segment_inside(
    corners: &[f64],
    ends: &[usize],
    rule: u64,
    ax: f64,
    ay: f64,
    bx: f64,
    by: f64,
    step: f64,
    value: &mut u64,
) -> u64
    ensures { (result ≡ (segment_inside_answer corners.now ends.now (rule_of rule) (point ax ay) (point bx by) step).number) × (value.new ≡ stored_truth (segment_inside_answer corners.now ends.now (rule_of rule) (point ax ay) (point bx by) step) value.old) }
{
    store_truth(
        checked::segment_inside(
            corners,
            ends,
            rule_of(rule),
            P { x: ax, y: ay },
            P { x: bx, y: by },
            step,
        ),
        value,
    )
}
