// All rows, in the order met.
ghost use Rattle.std.specs.Prelude.{◌≡◌, cond, [], ◌<◌};
ghost use Rattle.seqs.specs.Lists.{Strict};
ghost use Rattle.edges.specs.Table.{edges_in};
ghost use Rattle.edges.specs.Span.{row_number, Spanned};
ghost use Rattle.sweep.specs.declared.key.Key.TheVariants.{Top, Bottom};
ghost use Rattle.sweep.specs.Swept.{by, cut_at, numbers, swept, swept_all, Lent, Laid};
ghost use Rattle.sweep.specs.Laying.{Roomy, Stripe, Written};

use crate::piece::Cut;
use crate::row::{Done, row};
use crate::waiting::wait;
use edges::{Rows, Table, row_at, row_number};
use leaves::larger;
use outlines::FillRule;
use rules::Settings;

// What row r, in the order met, asks of its pieces.
pub fn cut_at(rule: FillRule, g: Settings, upward: bool, w: Rows, r: usize) -> Cut
    requires { Spanned w × (r < w.n) }
    ensures { result ≡ cut_at rule g (row_number w upward r) }
{
    Cut {
        rule,
        y: row_at(g, row_number(w, upward, r)),
        shrink: g.inset - g.pull,
        least: larger(g.spacing * 0.5, 3.0),
    }
}

// The rows, over a stripe of places that wait in order.
// kept (5): no plainer: rule, g, upward and w are one in finding's Plan, and here the theorems name each
fn all_rows(
    table: &Table,
    places: &mut [usize],
    rule: FillRule,
    g: Settings,
    upward: bool,
    w: Rows,
    floats: &mut [f64],
    wholes: &mut [usize],
) -> usize
    requires { Stripe table.now places.old w }
    ensures { Written result (swept upward rule g table.now [] places.old (numbers w upward 0)) floats.old floats.new wholes.old wholes.new }
{
    let mut done = Done::default();
    for r in 0..w.n {
        let c = cut_at(rule, g, upward, w, r);
        done = row(table, places, done, upward, c, floats, wholes, r);
    }
    done.i
}

// The pieces of all rows, in the order met, in slices of their own: how many. They are written as far as there is room; `places` is scratch.
pub fn lay(
    table: &Table,
    places: &mut [usize],
    rule: FillRule,
    g: Settings,
    upward: bool,
    w: Rows,
    floats: &mut [f64],
    wholes: &mut [usize],
) -> usize
    requires { Roomy table.now places.old upward w }
    ensures { Written result (swept_all upward rule g table.now (numbers w upward 0)) floats.old floats.new wholes.old wholes.new }
{
    let (places, room) = places.split_at_mut(table.len());
    wait(places, room, table, upward);
    all_rows(table, places, rule, g, upward, w, floats, wholes)
}

// The pieces of all rows, in the order met, behind a table of e edges: how many. They are written as far as there is room.
pub fn sweep(
    floats: &mut [f64],
    wholes: &mut [usize],
    e: usize,
    rule: FillRule,
    g: Settings,
    upward: bool,
    w: Rows,
) -> usize
    requires { Lent floats.old wholes.old e w × Strict (by (cond upward Bottom Top) (edges_in e floats.old)) }
    ensures { Laid e result (swept_all upward rule g (edges_in e floats.old) (numbers w upward 0)) floats.old floats.new wholes.old wholes.new }
{
    let (edges, floats) = floats.split_at_mut(6 * e);
    let (places, wholes) = wholes.split_at_mut(4 * e);
    lay(
        &Table::new(edges, e),
        places,
        rule,
        g,
        upward,
        w,
        floats,
        wholes,
    )
}
