// The pieces of a row, one at a time, and put into the slice.
ghost use Rattle.std.specs.Prelude.{◌≤◌, ◌≡◌, length};
ghost use Rattle.std.specs.Iterator.{YieldsFirst, item_count};
ghost use Rattle.geom.specs.Rings.{rings_of};
ghost use Rattle.rules.specs.Fill.{edges};
ghost use Rattle.rowwise.specs.Nearest.{Clear, row_cuts};
ghost use Rattle.rowwise.specs.Rows.{Scanning, Stepped, Putting};

use crate::crossing::{Ask, next_crossing};
use geom::Outline;
use rules::Settings;
use std::marker::Model;
use sweep::piece::{Cut, Scan, Span, closes, cut_ends, pass, put_piece};

// The next kept piece of a row, from behind the crossing `after` on; where the scan stands then, and the crossing that it stands behind.
fn next_piece(o: Outline, g: Settings, c: Cut, from: Scan, after: f64) -> Option<(Span, Scan, f64)>
    requires { (length o.corners.now ≤ 2048) × Clear c.y (edges g (rings_of o)) × Scanning c (edges g (rings_of o)) from after }
    ensures { Stepped c (edges g (rings_of o.entry)) from after result }
{
    let mut s = from;
    let mut last = after;
    // kept (3): no plainer: a turn passes as many sides as share an x, and ends at a piece
    loop {
        let q = Ask {
            y: c.y,
            after: last,
            at: s.at,
        };
        let x = next_crossing(o, g, q);
        if x.next == s.at {
            return None;
        }
        let t = pass(c, s, x);
        let p = cut_ends(c, t.start, x.x);
        if closes(c, s, t, p) {
            return Some((p, t, x.x));
        }
        s = t;
        last = x.x;
    }
}

// A row's kept pieces, left to right, each crossing from the rings anew: contracts see the list of those that are left.
#[derive(Drop)]
pub struct Pieces<'a> {
    outline: Outline<'a>,
    g: Settings,
    cut: Cut,
    scan: Scan,
    after: f64,
}

impl<'a> Model for Pieces<'a> {
    ghost use Rattle.std.specs.Prelude.{List};
    ghost use Rattle.sweep.specs.declared.piece.Span.{Span};

    ghost Value = { List Span };

    ghost use Rattle.rowwise.specs.Pieces.{left, Walking};

    ghost view = { left };

    ghost invariant = { Walking };
}

impl<'a> Pieces<'a> {
    pub fn new(outline: Outline<'a>, g: Settings, cut: Cut) -> Self
        requires { (length outline.corners.now ≤ 2048) × Clear cut.y (edges g (rings_of outline)) × (length (edges g (rings_of outline)) ≤ 1024) }
        ensures { result ≡ row_cuts cut (edges g (rings_of outline.entry)) }
    {
        Pieces {
            outline,
            g,
            cut,
            scan: Scan::default(),
            after: f64::NEG_INFINITY,
        }
    }
}

impl<'a> Iterator for Pieces<'a> {
    type Item = Span;

    ghost next_gives = { YieldsFirst (λ s. s) };

    ghost remaining = { item_count (λ s. s) };

    fn next(&mut self) -> Option<Span> {
        let (p, t, x) = next_piece(self.outline, self.g, self.cut, self.scan, self.after)?;
        self.scan = t;
        self.after = x;
        Some(p)
    }
}

// A row's pieces from piece i on, if there is room; how many there are then.
pub fn put_pieces(o: Outline, g: Settings, floats: &mut [f64], c: Cut, i: usize) -> usize
    requires { (length o.corners.now ≤ 2048) × Clear c.y (edges g (rings_of o)) × (length (edges g (rings_of o)) ≤ 1024) × (i ≤ 5000000) }
    ensures { Putting c.y (row_cuts c (edges g (rings_of o.entry))) floats.old floats.new i result }
{
    let mut n = i;
    for p in Pieces::new(o, g, c) {
        put_piece(floats, 3 * n, c.y, p);
        n += 1;
    }
    n
}
