// The table: edge i as a block of five floats at 5·i.
ghost use Rattle.std.specs.Prelude.{◌≡◌, ◌+◌, ◌*◌, ◌≤◌, List, length, map};
ghost use Rattle.seqs.specs.Records.{Added};
ghost use Rattle.seqs.specs.Slices.{Wrote};
ghost use Rattle.geom.specs.Rings.{rings_of};
ghost use Rattle.rules.specs.declared.Edge.{Edge};
ghost use Rattle.rules.specs.Fill.{edge, edges};
ghost use Rattle.edges.specs.Table.{found, direction, edge_block, block_edge, edge_place, edges_in};

use crate::side::kept_side;
use crate::sides::Sides;
use geom::Outline;
use rules::{Edge, Settings};
use std::marker::Model;

// A table of edges that is read: contracts see the list of its edges.
#[derive(Drop)]
pub struct Table<'a> {
    blocks: &'a [[f64; 5]],
}

impl<'a> Model for Table<'a> {
    ghost Value = { List Edge };

    ghost view = { λ t. map block_edge t.blocks.now };
}

impl<'a> Table<'a> {
    // The first n edges that stand in a slice.
    pub fn new(floats: &'a [f64], n: usize) -> Self
        requires { 5 * n ≤ length floats.now }
        ensures { result ≡ edges_in n floats.now }
    {
        let (blocks, _) = floats[..5 * n].as_chunks();
        Table { blocks }
    }

    pub fn len(&self) -> usize
        ensures { result ≡ length self.now }
    {
        self.blocks.len()
    }

    // The edge at place i; no edge past the last.
    pub fn edge(&self, i: usize) -> Edge
        ensures { result ≡ edge self.now i }
    {
        match self.blocks.get(i) {
            Some(&[y0, y1, x0, dxdy, way]) => Edge {
                y0,
                y1,
                x0,
                dxdy,
                falls: 0.0 < way,
            },
            None => Edge {
                y0: 0.0,
                y1: 0.0,
                x0: 0.0,
                dxdy: 0.0,
                falls: true,
            },
        }
    }
}

fn direction(falls: bool) -> f64
    ensures { result ≡ direction falls }
{
    if falls { 1.0 } else { -1.0 }
}

// A block at k, if there is room.
pub fn put_block<const N: usize>(floats: &mut [f64], k: usize, block: [f64; N])
    requires { k + N ≤ 2000000000 }
    ensures { Wrote floats.old floats.new k block.entry }
{
    if k + N <= floats.len() {
        floats[k..k + N].copy_from_slice(&block);
    }
}

// An edge at k, if there is room.
// kept (6): rule: document 01 lends the slices, so edges stand in one as blocks of floats
fn put_edge(floats: &mut [f64], k: usize, e: Edge)
    requires { k ≤ 1000000 }
    ensures { Wrote floats.old floats.new k (edge_block e) }
{
    put_block(floats, k, [e.y0, e.y1, e.x0, e.dxdy, direction(e.falls)]);
}

// A side's edge as edge n, if it is kept; how many there are then.
fn put_side(floats: &mut [f64], n: usize, s: Option<Edge>) -> usize
    requires { n ≤ 10000 }
    ensures { Added edge_place edge_block floats.old floats.new n result (found s) }
{
    let Some(e) = s else {
        return n;
    };
    put_edge(floats, 5 * n, e);
    n + 1
}

// The kept edges of all rings: how many. They are written as far as there is room.
pub fn build(o: Outline, g: Settings, floats: &mut [f64]) -> usize
    requires { length o.corners.now ≤ 2048 }
    ensures { Added edge_place edge_block floats.old floats.new 0 result (edges g (rings_of o.entry)) }
{
    let mut n = 0;
    for (a, b) in Sides::of(o, g) {
        n = put_side(floats, n, kept_side(a, b));
    }
    n
}
