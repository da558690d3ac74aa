// The pieces of all rows laid in slices of their own, over an edge table that is only read: several fills may read one table (request [6]). The sweep is `sweep`'s; only where the table and a piece stand differs.
#![tactic(auto)]

ghost use Rattle.edges.specs.Table.{edges_in};
ghost use Rattle.sweep.specs.Swept.{numbers, swept_all};
ghost use Rattle.laying.specs.Laying.{Lent, Laid};

use edges::{Rows, Table};
use outlines::FillRule;
use rules::Settings;

// The pieces of all rows, in the order met, over a table of e edges: how many. They are written as far as there is room; `places` is the sweep's scratch.
pub fn lay(
    table: &[f64],
    e: usize,
    places: &mut [usize],
    rule: FillRule,
    g: Settings,
    upward: bool,
    w: Rows,
    floats: &mut [f64],
    wholes: &mut [usize],
) -> usize
    requires { Lent table.now places.old e upward w }
    ensures { Laid result (swept_all upward rule g (edges_in e table.now) (numbers w upward 0)) floats.old floats.new wholes.old wholes.new }
{
    let table = Table::new(table, e);
    sweep::rows::lay(&table, places, rule, g, upward, w, floats, wholes)
}
