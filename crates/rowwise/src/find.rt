// The pieces of all rows at the front of the slices; or the finding that a slice is too short.
ghost use Rattle.rowwise.specs.Rows.{FoundIn};

use crate::rows::all_rows;
use finding::Plan;
use finding::find::Found;
use refusal::Refusal;

// No edges stand in front of them.
pub fn find(t: Plan, floats: &mut [f64], wholes: &mut [usize]) -> Result<Found, Refusal>
    ensures { FoundIn t.entry.outline.corners.now t.entry.outline.ends.now t.entry floats.new wholes.new result }
{
    let pieces = all_rows(t, floats, wholes);
    if floats.len() < 4 * pieces || wholes.len() < 6 * pieces {
        return Err(Refusal::Work);
    }
    Ok(Found { edges: 0, pieces })
}
