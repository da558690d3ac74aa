// The two calls of a fill, over the stages that stand below: `tatami`, and the row list that it sews.
//
// Checks 1 to 5 look at the outline alone. Then the edges and the pieces go to the working slices as far as there is room (docs/FILL.md has their
// layout), WORK is decided, and everything is counted before anything is written. Both slices are zero on the way out.
#![tactic(auto)]

ghost use Rattle.std.specs.Prelude.{◌≡◌};
ghost use Rattle.tatami.specs.Left.{said_filled, said_listed, left, left_list, tatami_left, row_list_left};

pub mod list;
pub mod sew;

use crate::list::list_found;
use crate::sew::sew_found;
use finding::find::find;
use finding::gate::plan;
use outlines::FillRule;
use refusal::Refusal;
use rules::Settings;

// What `tatami` wrote: how many sections and how many points.
#[derive(Clone, Copy)]
pub struct Filled {
    pub sections: u64,
    pub points: u64,
}

// kept (6): rule: document 01 lends the slices; no heap
// The points of every section, x before y, to the front of `points`, and where each section ends, in points, to the front of `stops`.
pub fn tatami(
    corners: &[f64],
    ends: &[usize],
    rule: FillRule,
    g: Settings,
    stagger: u64,
    upward: bool,
    points: &mut [f64],
    stops: &mut [usize],
    floats: &mut [f64],
    wholes: &mut [usize],
) -> Result<Filled, Refusal>
    ensures { left (said_filled result) points.new stops.new floats.new wholes.new ≡ tatami_left corners.now ends.now rule g stagger upward points.old stops.old floats.old wholes.old }
{
    let t = plan(corners, ends, rule, g, stagger, upward)?;
    let found = find(t, floats, wholes);
    sew_found(t, found, points, stops, floats, wholes)
}

// Every kept piece in the order met: y, xa and xb to the front of `ys`, its row number to `rows`, its section's number to `sections`; how many.
pub fn row_list(
    corners: &[f64],
    ends: &[usize],
    rule: FillRule,
    g: Settings,
    stagger: u64,
    upward: bool,
    ys: &mut [f64],
    rows: &mut [i64],
    sections: &mut [usize],
    floats: &mut [f64],
    wholes: &mut [usize],
) -> Result<u64, Refusal>
    ensures { left_list (said_listed result) ys.new rows.new sections.new floats.new wholes.new ≡ row_list_left corners.now ends.now rule g stagger upward ys.old rows.old sections.old floats.old wholes.old }
{
    let passed = plan(corners, ends, rule, g, stagger, upward)?;
    let found = find(passed, floats, wholes);
    list_found(passed, found, ys, rows, sections, floats, wholes)
}
