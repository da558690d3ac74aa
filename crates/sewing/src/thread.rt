// What all rows of a fill share, worked out once.
ghost use Rattle.std.specs.Prelude.{◌≡◌, ◌<◌, ◌≤◌, ◌^◌};
ghost use Rattle.std.specs.Option.{ForSome};
ghost use Rattle.rules.specs.Fill.{cycle as cycle_of, rem_euclid};
ghost use Rattle.sewing.specs.Sewing.{min_end, Decides};

use crate::Field;
use crate::row::remainder;
use crate::stitch::{Limits, limits_of};
use leaves::smaller;

// The least first and last stitch, the stagger's cycle, the first row's place in it, and what squared lengths decide.
#[derive(Clone, Copy)]
pub struct Thread {
    pub field: Field,
    pub margin: f64,
    pub cycle: u64,
    pub start: u64,
    pub limits: Option<Limits>,
    pub ghost margin_is: { margin ≡ min_end field.g.len },
    pub ghost cycle_is: { cycle ≡ cycle_of field.stagger },
    pub ghost some: { 0 < cycle },
    pub ghost small: { cycle ≤ 2 ^ 32 },
    pub ghost start_is: { start ≡ rem_euclid field.row cycle },
    pub ghost decide: { ForSome limits (λ m. Decides field.g.len m) },
}

// Stagger 0 counts as 1.
pub fn ready(field: Field) -> Thread
    requires { field.stagger < 2 ^ 32 }
    ensures { result.field ≡ field }
{
    let len = field.g.len;
    let cycle = field.stagger.max(1);
    Thread {
        field,
        margin: smaller(len * 0.25, 5.0),
        cycle,
        start: remainder(field.row, cycle),
        limits: limits_of(len),
    }
}
