// A second engine for a fill, with no edge table (request [8]): `tatami` and `row_list` with the same answers as the first's, from less working room.
//
// Checks 1 to 5 are the fill's. Then each row is worked out from the rings alone, its pieces go to the working slices as far as there is room (the layout
// of docs/FILL.md with E = 0), WORK is decided by 4I floats and 6I whole numbers, and what follows is the fill's own. Both slices are zero on the way out.
#![tactic(auto)]

ghost use Rattle.std.specs.Prelude.{◌≡◌};
ghost use Rattle.tatami.specs.Left.{said_filled, said_listed, left, left_list};
ghost use Rattle.plain.specs.Plain.{plain_tatami_left, plain_row_list_left};

use finding::gate::plan;
use outlines::FillRule;
use refusal::Refusal;
use rowwise::find::find;
use rules::Settings;
use tatami::Filled;
use tatami::list::list_found;
use tatami::sew::sew_found;

// kept (2): C: each engine has its own entries; they are the fill's but for `find`, and one last stage serves both
// kept (6): rule: document 01 lends the slices; no heap
// The points of every section, x before y, to the front of `points`, and where each section ends, in points, to the front of `stops`.
pub fn tatami(
    corners: &[f64],
    ends: &[usize],
    rule: FillRule,
    g: Settings,
    stagger: u64,
    upward: bool,
    points: &mut [f64],
    stops: &mut [usize],
    floats: &mut [f64],
    wholes: &mut [usize],
) -> Result<Filled, Refusal>
    ensures { left (said_filled result) points.new stops.new floats.new wholes.new ≡ plain_tatami_left corners.now ends.now rule g stagger upward points.old stops.old floats.old wholes.old }
{
    let t = plan(corners, ends, rule, g, stagger, upward)?;
    let found = find(t, floats, wholes);
    sew_found(t, found, points, stops, floats, wholes)
}

// Every kept piece in the order met: y, xa and xb to the front of `ys`, its row number to `rows`, its section's number to `sections`; how many.
pub fn row_list(
    corners: &[f64],
    ends: &[usize],
    rule: FillRule,
    g: Settings,
    stagger: u64,
    upward: bool,
    ys: &mut [f64],
    rows: &mut [i64],
    sections: &mut [usize],
    floats: &mut [f64],
    wholes: &mut [usize],
) -> Result<u64, Refusal>
    ensures { left_list (said_listed result) ys.new rows.new sections.new floats.new wholes.new ≡ plain_row_list_left corners.now ends.now rule g stagger upward ys.old rows.old sections.old floats.old wholes.old }
{
    let passed = plan(corners, ends, rule, g, stagger, upward)?;
    let found = find(passed, floats, wholes);
    list_found(passed, found, ys, rows, sections, floats, wholes)
}
