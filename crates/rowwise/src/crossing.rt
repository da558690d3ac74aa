// A row's next crossing, from the rings: of all crossings behind an x the nearest, with all that share its x.
ghost use Rattle.std.specs.Prelude.{◌≡◌, cond, ◌≤◌, pos, negsuc, length};
ghost use Rattle.geom.specs.Rings.{rings_of};
ghost use Rattle.rules.specs.Fill.{edges};
ghost use Rattle.edges.specs.Table.{found};
ghost use Rattle.rowwise.specs.Nearest.{Held, between, none_yet, Nearer, Gone};

use edges::side::kept_side;
use edges::sides::Sides;
use geom::{Outline, P};
use leaves::before;
use rules::{Edge, Settings};
use sweep::piece::{Crossing, join, way};

// What is asked: row y, the crossing that was passed last, and how many sides were passed with it.
#[derive(Clone, Copy)]
pub struct Ask {
    pub y: f64,
    pub after: f64,
    pub at: usize,
}

// No crossing so far, and `at` sides passed.
fn none_yet(at: usize) -> Crossing
    ensures { result ≡ none_yet at }
{
    Crossing {
        x: f64::INFINITY,
        dir: 0,
        next: at,
    }
}

// A side crosses at x: it is the nearest, or one with the nearest, or farther off, or passed already.
fn near(q: Ask, x: f64, falls: bool, m: Crossing) -> Crossing
    requires { Held q m }
    ensures { Nearer q (x, cond falls (pos 1) (negsuc 0)) m result }
{
    if before(q.after, x) {
        if before(x, m.x) {
            return Crossing {
                x,
                dir: way(falls),
                next: q.at + 1,
            };
        }
        if before(m.x, x) {
            return m;
        }
        return join(m, falls);
    }
    m
}

// A side of a ring, if it is kept and crosses the row.
fn meet(q: Ask, s: Option<Edge>, m: Crossing) -> Crossing
    requires { Held q m }
    ensures { Gone q m (found s) (length (found s)) result }
{
    let Some(e) = s else {
        return m;
    };
    if e.y0 <= q.y {
        if q.y < e.y1 {
            return near(q, e.x0 + (q.y - e.y0) * e.dxdy, e.falls, m);
        }
    }
    m
}

// Whether row y passes between the ends of a side. Where it doesn't, the side isn't crossed, and no more has to be worked out of it.
fn passes(a: P, b: P, y: f64) -> bool
    ensures { result ≡ between y a.y b.y }
{
    if y < a.y {
        return !(y < b.y);
    }
    y < b.y
}

// The sides of all rings: the next crossing, or none where it passes no side.
#[tactic(auto, using(edges::specs::SidesLaws::edges_kept))]
pub fn next_crossing(o: Outline, g: Settings, q: Ask) -> Crossing
    requires { (length o.corners.now ≤ 2048) × (q.at ≤ 5000) }
    ensures { Gone q (none_yet q.at) (edges g (rings_of o.entry)) (length o.entry.corners.now) result }
{
    let mut m = none_yet(q.at);
    for (a, b) in Sides::of(o, g) {
        if passes(a, b, q.y) {
            m = meet(q, kept_side(a, b), m);
        }
    }
    m
}
