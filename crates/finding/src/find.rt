// The pieces of all rows, laid out behind the edges; or the finding that a working slice is too short.
ghost use Rattle.finding.specs.Stages.{FoundIn};

use crate::Plan;
use edges::build;
use refusal::Refusal;
use sweep::sweep;

// How many edges and pieces.
#[derive(Clone, Copy)]
pub struct Found {
    pub edges: usize,
    pub pieces: usize,
}

pub fn find(t: Plan, floats: &mut [f64], wholes: &mut [usize]) -> Result<Found, Refusal>
    ensures { FoundIn t.entry.outline.corners.now t.entry.outline.ends.now t.entry floats.new wholes.new result }
{
    let e = build(t.outline, t.g, floats);
    if floats.len() < 6 * e {
        return Err(Refusal::Work);
    }
    if wholes.len() < 4 * e {
        return Err(Refusal::Work);
    }
    let i = sweep(floats, wholes, e, t.rule, t.g, t.upward, t.rows);
    if floats.len() < 6 * e + 4 * i {
        return Err(Refusal::Work);
    }
    if wholes.len() < 4 * e + 6 * i {
        return Err(Refusal::Work);
    }
    Ok(Found {
        edges: e,
        pieces: i,
    })
}
