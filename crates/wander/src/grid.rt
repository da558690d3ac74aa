// The grid over an outline: which of its points are inside, and which links stay inside.
ghost use Rattle.std.specs.Prelude.{◌≡◌, ◌*◌, ◌<◌, ◌≤◌, length, drop, ◌++◌};
ghost use Rattle.geom.specs.Rings.{rings_of};
ghost use Rattle.meander_rules.specs.Meander.{inside_at, link_ok, free_at_first};
ghost use Rattle.wander.specs.Walking.{mark_of};

use meander_rules::{Ground, Lattice};
use outlines::Area;

// Whether the way from point a to point b stays inside.
pub fn link_ok(ground: Ground, a: usize, b: usize) -> bool
    ensures { result ≡ link_ok (rings_of ground.entry.area.outline) ground.entry.area.rule ground.entry.grid a b }
{
    let g = ground.grid;
    ground.area.has_way(g.place(a), g.place(b), 2.0)
}

// Whether point k is inside, as a mark.
fn mark_of(area: Area, g: Lattice, k: usize) -> usize
    requires { 0 < g.columns }
    ensures { result ≡ mark_of (inside_at (rings_of area.entry.outline) area.entry.rule g k) }
{
    usize::from(area.has(g.place(k)))
}

// The marks of all points to the front of w: all that are inside are free.
pub fn mark(w: &mut [usize], area: Area, g: Lattice)
    requires { g.columns * g.rows ≤ length w.old }
    ensures { w.new ≡ free_at_first (rings_of area.entry.outline) area.entry.rule g ++ drop (length (free_at_first (rings_of area.entry.outline) area.entry.rule g)) w.old }
{
    for k in 0..g.columns * g.rows {
        w[k] = mark_of(area, g, k);
    }
}
