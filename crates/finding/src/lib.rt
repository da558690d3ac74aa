// The beginning of a fill: checks 1 to 5, and the pieces of all rows found in the working slices.
#![tactic(auto)]

ghost use Rattle.std.specs.Prelude.{◌≡◌};
ghost use Rattle.geom.specs.Outline.{rings};
ghost use Rattle.rules.specs.Fill.{edges as edges_of};
ghost use Rattle.rules.specs.Accepted.{Accepted};
ghost use Rattle.edges.specs.Span.{rows_of};

pub mod find;
pub mod gate;

use edges::Rows;
use geom::Outline;
use outlines::FillRule;
use rules::Settings;

// What the stages of one fill share, of which checks 1 to 5 are passed: `upward` is bottom up.
#[derive(Clone, Copy)]
pub struct Plan<'a> {
    pub outline: Outline<'a>,
    pub rule: FillRule,
    pub g: Settings,
    pub stagger: u64,
    pub upward: bool,
    pub rows: Rows,
    pub ghost accepted: { Accepted outline.corners.now outline.ends.now g stagger },
    pub ghost spanned: { rows ≡ rows_of g (edges_of g (rings outline.corners.now outline.ends.now)) },
}
