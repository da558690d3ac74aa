// The passes back and forth over what stands at the front of the output.
ghost use Rattle.std.specs.Prelude.{◌≡◌, cond, ◌+◌, ◌-◌, ◌*◌, ◌^◌, ◌<◌, ◌≤◌, length};
ghost use Rattle.seqs.specs.Slices.{put, capped};
ghost use Rattle.geom.specs.Sewing.{flat};
ghost use Rattle.stroke.specs.Running.{pass, passes_from, standing};

use geom::sewing::{add_within, corner, put_point};

// The place of point r of a pass over n points.
fn place(r: usize, n: usize, back: bool) -> usize
    requires { r < n }
    ensures { result ≡ cond back (n - 1 - r) r }
{
    if back {
        return n - 1 - r;
    }
    r
}

// kept (6): rule: document 01 lends one slice, and a pass is read from its front and put behind it
// One more pass over the n points at the front of out, from k on; answers the place after it.
fn put_pass(out: &mut [f64], k: usize, n: usize, back: bool) -> usize
    requires { (2 * n ≤ k) × (k + 2 * (n - 1) ≤ length out.old) }
    ensures { (out.new ≡ put out.old k (flat (pass (standing out.old n) back))) × (result ≡ k + 2 * (n - 1)) }
{
    let mut at = k;
    for r in 1..n {
        let p = corner(out, 2 * place(r, n, back));
        put_point(out, at, p);
        at += 2;
    }
    at
}

// The passes after the first, over the n points at the front of out.
pub fn put_passes(out: &mut [f64], n: usize, passes: u64)
    requires { 2 * n + length (flat (passes_from (standing out.old n) 1 (passes - 1))) ≤ length out.old }
    ensures { out.new ≡ put out.old (2 * n) (flat (passes_from (standing out.old n) 1 (passes - 1))) }
{
    let mut at = 2 * n;
    for pass in 1..passes {
        at = put_pass(out, at, n, pass % 2 == 1);
    }
}

// How many points all passes have where one has n, or room + 1 where they pass the room.
pub fn count_passes(n: u64, passes: u64, room: u64) -> u64
    requires { (n ≤ room) × (room < 2 ^ 63) }
    ensures { result ≡ capped room (n + (passes - 1) * (n - 1)) }
{
    if n == 0 {
        return 0;
    }
    let mut c = n;
    for _ in 1..passes {
        c = add_within(c, n - 1, room);
    }
    c
}
