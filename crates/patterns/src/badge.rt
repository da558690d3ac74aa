// Cross stitch on a grid of at most 4,096 cells either way.
ghost use Rattle.std.specs.Prelude.{◌≡◌};
ghost use Rattle.geom.specs.Rings.{rings_of};
ghost use Rattle.patterns_rules.specs.Patterns.{stitched};
ghost use Rattle.patterns_rules.specs.Answers.{LinesSewn};

use cross::{Badge, count, write};
use patterns_rules::Count;
use refusal::Refusal;

// The rows and their ends, or ROOM and nothing. A cell adds four points and one row at most: where that has room, nothing is counted first.
pub fn on_grid(badge: Badge, out: &mut [f64], stops: &mut [usize]) -> Result<Count, Refusal>
    ensures { LinesSewn (stitched (rings_of badge.entry.outline) badge.entry.rule badge.entry.grid) result out.old out.new stops.old stops.new }
{
    let cells = badge.grid.columns * badge.grid.rows;
    if cells <= out.len() / 8 && cells <= stops.len() {
        return Ok(write(out, stops, badge));
    }
    count(badge).fits(out.len(), stops.len())?;
    Ok(write(out, stops, badge))
}
