// A side of a ring as an edge.
ghost use Rattle.std.specs.Prelude.{◌≡◌};
ghost use Rattle.rules.specs.Fill.{edge_of, kept_side};
ghost use Rattle.edges.specs.Table.{found};

use geom::P;
use leaves::magnitude;
use rules::{Edge, Settings};

fn edge_of(top: P, bot: P, falls: bool) -> Edge
    ensures { result ≡ edge_of top bot falls }
{
    Edge {
        y0: top.y,
        y1: bot.y,
        x0: top.x,
        dxdy: (bot.x - top.x) / (bot.y - top.y),
        falls,
    }
}

// A side as an edge, or none where it is dropped.
pub fn kept_side(a: P, b: P) -> Option<Edge>
    ensures { found result ≡ kept_side (a, b) }
{
    if magnitude(a.y - b.y) < 1e-9 {
        return None;
    }
    if a.y < b.y {
        return Some(edge_of(a, b, true));
    }
    Some(edge_of(b, a, false))
}
