// All rows, in the order met, each from the rings anew.
ghost use Rattle.finding.specs.Stages.{alone};
ghost use Rattle.rowwise.specs.Rows.{Laid};

use crate::piece::put_pieces;
use finding::Plan;
use sweep::piece::put_rows;
use sweep::rows::cut_at;

// The pieces of all rows: how many. They are written as far as there is room, and so are the counts of their rows.
pub fn all_rows(t: Plan, floats: &mut [f64], wholes: &mut [usize]) -> usize
    ensures { Laid result (alone t.entry.outline.corners.now t.entry.outline.ends.now t.entry) floats.old floats.new wholes.old wholes.new }
{
    let mut i = 0;
    for r in 0..t.rows.n {
        let c = cut_at(t.rule, t.g, t.upward, t.rows, r);
        let m = put_pieces(t.outline, t.g, floats, c, i);
        put_rows(wholes, i, m - i, r);
        i = m;
    }
    i
}
