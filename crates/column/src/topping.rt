// The top half of a column in its style, from the stitches that stand in the working slice.
ghost use Rattle.std.specs.Prelude.{◌≡◌, ◌+◌, ◌*◌, ◌^◌, ◌<◌, ◌≤◌, length};
ghost use Rattle.seqs.specs.Slices.{put, capped};
ghost use Rattle.geom.specs.Outline.{points};
ghost use Rattle.geom.specs.Sewing.{flat};
ghost use Rattle.satinrules.specs.Column.{after_zigzag, styled};
ghost use Rattle.column.specs.Topping.{top_of};

use crate::turning::turn_round;
use passes::top::{count_styled, put_styled};
use satinrules::Satin;

// Whether the thread is at the far end once the underlay is sewn.
pub fn after_zigzag(g: Satin) -> bool
    ensures { result ≡ after_zigzag g }
{
    let end = g.underlay % 2 == 1;
    if g.underlay / 4 % 2 == 1 {
        return !end;
    }
    end
}

// How many points the top over this path has, or room + 1 where they pass the room.
pub fn count_top(path: &[f64], g: Satin, room: u64) -> u64
    requires { room < 2 ^ 63 }
    ensures { result ≡ capped room (length (styled g.split g.style (points path.now))) }
{
    let split = g.split;
    let style = g.style;
    count_styled(path, split, style, room)
}

// The top over this path, from k on, turned round where the thread is at the far end; answers the place after it.
pub fn put_top(out: &mut [f64], k: usize, path: &[f64], g: Satin, far: bool) -> usize
    requires { k + 2 * length (top_of far g (points path.now)) ≤ length out.old }
    ensures { (out.new ≡ put out.old k (flat (top_of far g (points path.now)))) × (result ≡ k + 2 * length (top_of far g (points path.now))) }
{
    let split = g.split;
    let style = g.style;
    let to = put_styled(out, k, path, split, style);
    if far {
        turn_round(&mut out[k..to]);
        return to;
    }
    to
}
