// Document 01's face of the leaves: NUMBER for what isn't finite and for a root below zero.
#![tactic(auto, unfolding(crate::specs::Answer::root_answer, crate::specs::Answer::floor_answer, crate::specs::Answer::ceil_answer, crate::specs::Answer::magnitude_answer, crate::specs::Answer::smaller_answer, crate::specs::Answer::larger_answer, crate::specs::Answer::order_answer))]

ghost use Rattle.std.specs.Prelude.{◌≡◌, true, false, MatchResult};
ghost use Rattle.refusal.specs.declared.Refusal.TheVariants.{Number};
ghost use Rattle.refusal.specs.Refusal.{said};
ghost use Rattle.numbers.specs.Order.{finite};
ghost use Rattle.leaves.specs.Answer.{said_order, root_answer, floor_answer, ceil_answer, magnitude_answer, smaller_answer, larger_answer, order_answer};

use crate::order::{before, is_finite};
use refusal::Refusal;
use std::cmp::Ordering;

// The number itself.
fn finite(x: f64) -> Result<f64, Refusal>
    ensures { MatchResult result (λ v. (v ≡ x) × (finite x ≡ true)) (λ e. (e ≡ Number) × (finite x ≡ false)) }
{
    if is_finite(x) {
        Ok(x)
    } else {
        Err(Refusal::Number)
    }
}

pub fn root(x: f64) -> Result<f64, Refusal>
    ensures { said result ≡ root_answer x }
{
    if finite(x)? >= 0.0 {
        Ok(crate::digits::root(x))
    } else {
        Err(Refusal::Number)
    }
}

pub fn floor(x: f64) -> Result<f64, Refusal>
    ensures { said result ≡ floor_answer x }
{
    Ok(crate::whole::floor(finite(x)?))
}

pub fn ceil(x: f64) -> Result<f64, Refusal>
    ensures { said result ≡ ceil_answer x }
{
    Ok(crate::whole::ceil(finite(x)?))
}

pub fn magnitude(x: f64) -> Result<f64, Refusal>
    ensures { said result ≡ magnitude_answer x }
{
    Ok(crate::order::magnitude(finite(x)?))
}

pub fn smaller(a: f64, b: f64) -> Result<f64, Refusal>
    ensures { said result ≡ smaller_answer a b }
{
    Ok(crate::order::smaller(finite(a)?, finite(b)?))
}

pub fn larger(a: f64, b: f64) -> Result<f64, Refusal>
    ensures { said result ≡ larger_answer a b }
{
    Ok(crate::order::larger(finite(a)?, finite(b)?))
}

// Where the first stands in the order, seen from the second.
pub fn order(a: f64, b: f64) -> Result<Ordering, Refusal>
    ensures { said_order result ≡ order_answer a b }
{
    finite(a)?;
    finite(b)?;
    if before(a, b) {
        return Ok(Ordering::Less);
    }
    if before(b, a) {
        return Ok(Ordering::Greater);
    }
    Ok(Ordering::Equal)
}
