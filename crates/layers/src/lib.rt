// A light fill beneath a dense one (request [6]): one call prepares the edge table and runs both fills over it, each with settings and slices of its own.
//
// The table is written while it is prepared and only then: the fills are lent it to be read. `places` is the sweep's scratch, one fill after the other. The table's slices are zero on the way out, as the fills' own working slices are.
#![tactic(auto)]

ghost use Rattle.std.specs.Prelude.{◌≡◌, Err};
ghost use Rattle.tatami.specs.Left.{said_filled, left};
ghost use Rattle.layers.specs.Layers.{slices, twice, twice_left};
ghost use Rattle.layers.specs.Stages.{Cleared};

pub mod one;
pub mod table;
pub mod two;

use crate::table::prepare;
use crate::two::fill_both;
use outlines::FillRule;
use refusal::Refusal;
use tatami::Filled;

// What is a fill's own: `upward` is bottom up.
#[derive(Clone, Copy)]
pub struct Layer {
    pub spacing: f64,
    pub len: f64,
    pub inset: f64,
    pub pull: f64,
    pub stagger: u64,
    pub upward: bool,
}

// What both fills say.
#[derive(Clone, Copy)]
pub struct Both {
    pub first: Result<Filled, Refusal>,
    pub second: Result<Filled, Refusal>,
}

// The table's refusal, given to both fills.
fn refused(e: Refusal) -> Both
    ensures { (result.first ≡ Err e) × (result.second ≡ Err e) }
{
    Both {
        first: Err(e),
        second: Err(e),
    }
}

// Every working slice made zero.
fn clear(
    table: &mut [f64],
    places: &mut [usize],
    floats: &mut [f64],
    wholes: &mut [usize],
    floats2: &mut [f64],
    wholes2: &mut [usize],
)
    ensures { Cleared table.old table.new floats.old floats.new floats2.old floats2.new places.old places.new wholes.old wholes.new wholes2.old wholes2.new }
{
    table.fill(0.0);
    places.fill(0);
    floats.fill(0.0);
    wholes.fill(0);
    floats2.fill(0.0);
    wholes2.fill(0);
}

// kept (6): rule: document 01 lends the slices; no heap
// Each fill's points, x before y, to the front of its `points`, and where each section ends, in points, to the front of its `stops`.
pub fn tatami_twice(
    corners: &[f64],
    ends: &[usize],
    rule: FillRule,
    cosine: f64,
    sine: f64,
    first: Layer,
    second: Layer,
    table: &mut [f64],
    places: &mut [usize],
    points: &mut [f64],
    stops: &mut [usize],
    floats: &mut [f64],
    wholes: &mut [usize],
    points2: &mut [f64],
    stops2: &mut [usize],
    floats2: &mut [f64],
    wholes2: &mut [usize],
) -> Both
    ensures { twice (left (said_filled result.first) points.new stops.new floats.new wholes.new) (left (said_filled result.second) points2.new stops2.new floats2.new wholes2.new) table.new places.new ≡ twice_left corners.now ends.now rule cosine sine first second (slices points.old stops.old floats.old wholes.old) (slices points2.old stops2.old floats2.old wholes2.old) table.old places.old }
{
    let prepared = match prepare(corners, ends, cosine, sine, table, places.len()) {
        Ok(prepared) => prepared,
        Err(e) => return refused(e),
    };
    let Some(e) = prepared else {
        clear(table, places, floats, wholes, floats2, wholes2);
        return refused(Refusal::Work);
    };
    let r = fill_both(
        corners, ends, rule, cosine, sine, first, second, table, e, places, points, stops, floats,
        wholes, points2, stops2, floats2, wholes2,
    );
    table.fill(0.0);
    places.fill(0);
    r
}
