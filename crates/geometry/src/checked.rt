// Document 01's face of the geometry: the value, or the number of the first check that applies.
#![tactic(auto, unfolding(crate::specs::Answers::dot_answer, crate::specs::Answers::len_answer, crate::specs::Answers::dist_answer, crate::specs::Answers::norm_answer, crate::specs::Answers::perp_answer, crate::specs::Answers::rotate_answer, crate::specs::Answers::lerp_answer, crate::specs::Answers::cross_answer, crate::specs::Answers::inside_answer, crate::specs::Answers::winding_answer, crate::specs::Answers::point_inside_answer, crate::specs::Answers::segment_inside_answer))]

ghost use Rattle.std.specs.Prelude.{◌≡◌};
ghost use Rattle.refusal.specs.Refusal.{said};
ghost use Rattle.geometry.specs.Answers.{dot_answer, len_answer, dist_answer, norm_answer, perp_answer, rotate_answer, lerp_answer, cross_answer, inside_answer, winding_answer, point_inside_answer, segment_inside_answer};

use geom::P;
use limits::{good_number, good_numbers, good_point, good_step, good_turn, outline};
use outlines::{Area, FillRule};
use refusal::{Refusal, unless};

pub fn dot(a: P, o: P) -> Result<f64, Refusal>
    ensures { said result ≡ dot_answer a o }
{
    unless(Refusal::Number, good_point(a))?;
    unless(Refusal::Number, good_point(o))?;
    Ok(a.dot(o))
}

pub fn len(a: P) -> Result<f64, Refusal>
    ensures { said result ≡ len_answer a }
{
    unless(Refusal::Number, good_point(a))?;
    Ok(a.len())
}

pub fn dist(a: P, o: P) -> Result<f64, Refusal>
    ensures { said result ≡ dist_answer a o }
{
    unless(Refusal::Number, good_point(a))?;
    unless(Refusal::Number, good_point(o))?;
    Ok(a.dist(o))
}

pub fn norm(a: P) -> Result<P, Refusal>
    ensures { said result ≡ norm_answer a }
{
    unless(Refusal::Number, good_point(a))?;
    Ok(a.norm())
}

pub fn perp(a: P) -> Result<P, Refusal>
    ensures { said result ≡ perp_answer a }
{
    unless(Refusal::Number, good_point(a))?;
    Ok(a.perp())
}

pub fn rotate(a: P, cos: f64, sin: f64) -> Result<P, Refusal>
    ensures { said result ≡ rotate_answer a cos sin }
{
    unless(Refusal::Number, good_point(a))?;
    unless(Refusal::Turn, good_turn(cos, sin))?;
    Ok(a.rotate(cos, sin))
}

pub fn lerp(a: P, o: P, t: f64) -> Result<P, Refusal>
    ensures { said result ≡ lerp_answer a o t }
{
    unless(Refusal::Number, good_point(a))?;
    unless(Refusal::Number, good_point(o))?;
    unless(Refusal::Number, good_number(t))?;
    Ok(a.lerp(o, t))
}

pub fn cross(a: P, b: P) -> Result<f64, Refusal>
    ensures { said result ≡ cross_answer a b }
{
    unless(Refusal::Number, good_point(a))?;
    unless(Refusal::Number, good_point(b))?;
    Ok(geom::cross(a, b))
}

// No check applies to a winding number.
pub fn inside(rule: FillRule, winding: i64) -> Result<bool, Refusal>
    ensures { said result ≡ inside_answer rule winding }
{
    Ok(rule.inside(winding))
}

pub fn winding(corners: &[f64], ends: &[usize], p: P) -> Result<i64, Refusal>
    ensures { said result ≡ winding_answer corners.now ends.now p }
{
    let rings = outline(corners, ends)?;
    unless(Refusal::Number, good_numbers(corners))?;
    unless(Refusal::Number, good_point(p))?;
    Ok(Area::of(rings, FillRule::NonZero).winding(p))
}

pub fn point_inside(corners: &[f64], ends: &[usize], rule: FillRule, p: P) -> Result<bool, Refusal>
    ensures { said result ≡ point_inside_answer corners.now ends.now rule p }
{
    let o = outline(corners, ends)?;
    unless(Refusal::Number, good_numbers(corners))?;
    unless(Refusal::Number, good_point(p))?;
    Ok(Area::of(o, rule).has(p))
}

pub fn segment_inside(
    corners: &[f64],
    ends: &[usize],
    rule: FillRule,
    a: P,
    b: P,
    step: f64,
) -> Result<bool, Refusal>
    ensures { said result ≡ segment_inside_answer corners.now ends.now rule a b step }
{
    let o = outline(corners, ends)?;
    unless(Refusal::Number, good_numbers(corners))?;
    unless(Refusal::Number, good_point(a))?;
    unless(Refusal::Number, good_point(b))?;
    unless(Refusal::Setting, good_step(step))?;
    Ok(Area::of(o, rule).has_way(a, b, step))
}
