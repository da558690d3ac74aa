// One row: its places, then its pieces.
ghost use Rattle.sweep.specs.Laying.{Rowed, Row};

use crate::active::{Live, gather};
use crate::piece::{Cut, put_pieces, put_rows};
use edges::Table;

// Between two rows: the stripe's two counts, and how many pieces there are.
#[derive(Clone, Copy, Default)]
pub struct Done {
    pub live: Live,
    pub i: usize,
}

pub fn row(
    table: &Table,
    places: &mut [usize],
    from: Done,
    upward: bool,
    c: Cut,
    floats: &mut [f64],
    wholes: &mut [usize],
    r: usize,
) -> Done
    requires { Row table.now places.old from }
    ensures { Rowed upward c table.now from r floats.old floats.new wholes.old wholes.new places.old places.new result }
{
    let live = gather(places, from.live, table, upward, c.y);
    let i = put_pieces(table, &places[..live.m], c, floats, from.i);
    put_rows(wholes, from.i, i - from.i, r);
    Done { live, i }
}
