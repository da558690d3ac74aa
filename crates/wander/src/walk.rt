// The walks of a meander: depth first, back along their own path where they are stuck, from each point in turn that is still free.
ghost use Rattle.std.specs.Prelude.{◌≡◌, ◌&&◌, ◌*◌, ◌<◌, ◌≤◌, length, take};
ghost use Rattle.std.specs.Option.{option_to_list};
ghost use Rattle.geom.specs.Rings.{rings_of};
ghost use Rattle.meander_rules.specs.Meander.{points_of, most_points, link_ok, neighbours, shuffle, is_free, open_way, turn, start_at, walks_of};
ghost use Rattle.wander.specs.Walking.{walk_in, Ready, Stepped, finish, walks_in, Between};

use crate::grid::link_ok;
use crate::slice::{go_back, go_on, is_free};
use crate::ways::{neighbours, shuffle};
use crate::{Round, Steps};
use meander_rules::{Ground, Lattice};
use outlines::Area;

// A way that was picked, where there is one, and the random source after it.
#[derive(Clone, Copy)]
pub struct Picked {
    pub way: Option<usize>,
    pub seed: u64,
}

// Whether point k is free, over an allowed link from here.
fn is_open(w: &[usize], ground: Ground, here: usize, k: usize) -> bool
    requires { (points_of ground.grid ≤ length w.now) }
    ensures { result ≡ (is_free (take (points_of ground.entry.grid) w.now) k && link_ok (rings_of ground.entry.area.outline) ground.entry.area.rule ground.entry.grid here k) }
{
    is_free(w, ground.grid.columns * ground.grid.rows, k) && link_ok(ground, here, k)
}

// The first of the ways that is open.
fn first_open(ways: &[usize], w: &[usize], ground: Ground, here: usize) -> Option<usize>
    requires { (points_of ground.grid ≤ length w.now) }
    ensures { option_to_list result ≡ open_way (link_ok (rings_of ground.entry.area.outline) ground.entry.area.rule ground.entry.grid) (take (points_of ground.entry.grid) w.now) here ways.now }
{
    for &k in ways {
        if is_open(w, ground, here, k) {
            return Some(k);
        }
    }
    None
}

// The way on from here, of the ways that are given, in random order.
fn pick_of(ways: &mut [usize], w: &[usize], ground: Ground, here: usize, seed: u64) -> Picked
    requires { (points_of ground.grid ≤ length w.now) }
    ensures { (option_to_list result.way ≡ open_way (link_ok (rings_of ground.entry.area.outline) ground.entry.area.rule ground.entry.grid) (take (points_of ground.entry.grid) w.now) here (shuffle ways.old seed).order) × (result.seed ≡ (shuffle ways.old seed).seed) }
{
    let x = shuffle(ways, seed);
    Picked {
        way: first_open(ways, w, ground, here),
        seed: x,
    }
}

// The way on from here, of its neighbours.
fn pick(w: &[usize], ground: Ground, here: usize, seed: u64) -> Picked
    requires { (here < points_of ground.grid) × (points_of ground.grid ≤ most_points) × (points_of ground.grid ≤ length w.now) }
    ensures { (option_to_list result.way ≡ open_way (link_ok (rings_of ground.entry.area.outline) ground.entry.area.rule ground.entry.grid) (take (points_of ground.entry.grid) w.now) here (shuffle (neighbours ground.entry.grid here) seed).order) × (result.seed ≡ (shuffle (neighbours ground.entry.grid here) seed).seed) }
{
    let mut ways = neighbours(ground.grid, here);
    pick_of(ways.as_mut_slice(), w, ground, here, seed)
}

// A turn of the walk.
fn turn(w: &mut [usize], ground: Ground, s: Steps) -> Steps
    requires { Ready (points_of ground.grid) w.old s × (s.top < 2 * points_of ground.grid) }
    ensures { Stepped (points_of ground.entry.grid) w.old w.new result (turn ground.entry.grid (link_ok (rings_of ground.entry.area.outline) ground.entry.area.rule ground.entry.grid) (walk_in (points_of ground.entry.grid) w.old s)) }
{
    let n = ground.grid.columns * ground.grid.rows;
    let here = w[s.top];
    let p = pick(w, ground, here, s.seed);
    let t = Steps { seed: p.seed, ..s };
    match p.way {
        Some(k) => go_on(w, n, t, k),
        None => go_back(w, n, t),
    }
}

// The walk to its end.
fn walk(w: &mut [usize], ground: Ground, first: Steps) -> Steps
    requires { Ready (points_of ground.grid) w.old first }
    ensures { Stepped (points_of ground.entry.grid) w.old w.new result (finish ground.entry.grid (link_ok (rings_of ground.entry.area.outline) ground.entry.area.rule ground.entry.grid) (walk_in (points_of ground.entry.grid) w.old first)) }
{
    let last = 2 * (ground.grid.columns * ground.grid.rows);
    let mut s = first;
    // kept (3): no plainer: the walk ends where its stack is empty, so a range would need a break
    while s.top < last {
        s = turn(w, ground, s);
    }
    s
}

// A walk from point k, where it is still free; its end goes behind those of the walks before it.
fn start_at(w: &mut [usize], area: Area, g: Lattice, t: Round, k: usize) -> Round
    requires { Between (points_of g) w.old t }
    ensures { (walks_in (points_of g) w.new result ≡ start_at g (link_ok (rings_of area.entry.outline) area.entry.rule g) k (walks_in (points_of g) w.old t)) × Between (points_of g) w.new result × (length w.new ≡ length w.old) }
{
    let n = g.columns * g.rows;
    if is_free(w, n, k) {
        let first = Steps {
            top: 2 * n,
            size: t.size,
            seed: t.seed,
        };
        let ground = Ground { area, grid: g };
        let s = go_on(w, n, first, k);
        let e = walk(w, ground, s);
        let at = 4 * n + t.walks;
        w[at] = e.size;
        return Round {
            walks: t.walks + 1,
            size: e.size,
            seed: e.seed,
        };
    }
    t
}

// All walks: the marks of the free points stand in the front of w.
pub fn walks(w: &mut [usize], area: Area, g: Lattice, seed: u64) -> Round
    requires { (points_of g ≤ most_points) × (8 * points_of g ≤ length w.old) }
    ensures { (walks_in (points_of g) w.new result ≡ walks_of g (link_ok (rings_of area.entry.outline) area.entry.rule g) (take (points_of g) w.old) seed) × Between (points_of g) w.new result × (length w.new ≡ length w.old) }
{
    let mut t = Round {
        walks: 0,
        size: 0,
        seed,
    };
    for k in 0..g.columns * g.rows {
        t = start_at(w, area, g, t, k);
    }
    t
}
