// The running lengths of both rails, laid once for a call, and by them the pairs of a pass: four numbers each, at the front of the working slice.
ghost use Rattle.std.specs.Prelude.{◌≡◌, [], ◌∷◌, ◌+◌, ◌*◌, ◌/◌, ◌^◌, ◌≤◌, ◌<◌, length, take};
ghost use Rattle.seqs.specs.Slices.{put};
ghost use Rattle.geom.specs.Outline.{points};
ghost use Rattle.geom.specs.Sewing.{flat};
ghost use Rattle.satinrules.specs.Arc.{rail_at};
ghost use Rattle.pairing.specs.Walk.{walk_places};
ghost use Rattle.pairing.specs.Store.{Laid, Sound, stored_pairs, put_within};

use crate::places::{Pass, Places};
use crate::rails::Rails;
use arc::{along_from, put_lengths, side_from};
use geom::P;
use geom::sewing::put_point;
use satinrules::Pair;

// The running lengths of both rails, one after the other, to the front of `rails`.
pub fn put_rails(rails: &mut [f64], a: &[f64], b: &[f64])
    requires { Sound a.now b.now × (length a.now / 2 + length b.now / 2 ≤ length rails.old) }
    ensures { Laid a.now b.now rails.new }
{
    put_lengths(rails, 0, a);
    put_lengths(rails, a.len() / 2, b);
}

// The pair at a place; the sides that end at corners i and j are tried first.
fn pair_at(rails: Rails, place: P, i: usize, j: usize) -> Pair
    ensures { result ≡ record { a = rail_at (points rails.entry.a.now) place.x; b = rail_at (points rails.entry.b.now) place.y } }
{
    let p = along_from(rails.a, rails.along_a(), place.x, i);
    let q = along_from(rails.b, rails.along_b(), place.y, j);
    Pair { a: p, b: q }
}

// Both points of a pair, from `to` on.
pub fn put_pair(w: &mut [f64], to: usize, q: Pair)
    requires { to + 4 ≤ length w.old }
    ensures { w.new ≡ put w.old to (flat (q.a ∷ q.b ∷ [])) }
{
    let a = q.a;
    let b = q.b;
    put_point(w, to, a);
    put_point(w, to + 2, b);
}

// The same, where there is room for it.
fn put_within(w: &mut [f64], to: usize, q: Pair)
    ensures { w.new ≡ put_within w.old to q }
{
    if to < w.len() && w.len() - to >= 4 {
        put_pair(w, to, q);
    }
}

// The pairs of a pass, to the front of w as far as there is room; answers how many there are. Places mostly go on, so the side that
// the last pair was found on is tried first.
pub fn lay_pairs(w: &mut [f64], rails: Rails, pass: Pass) -> usize
    requires { pass.n < 2 ^ 59 }
    ensures { (result ≡ length (walk_places rails.entry.course.ends (points rails.entry.course.sync.now) pass)) × (length w.new ≡ length w.old) × (4 * result ≤ length w.old → take (4 * result) w.new ≡ stored_pairs rails.entry.a.now rails.entry.b.now rails.entry.course.sync.now (walk_places rails.entry.course.ends (points rails.entry.course.sync.now) pass)) }
{
    let mut i = 1;
    let mut j = 1;
    let mut at = 0;
    for place in Places::of(rails.course.sync, rails.course.ends, pass) {
        i = side_from(rails.along_a(), place.x, i);
        j = side_from(rails.along_b(), place.y, j);
        put_within(w, at, pair_at(rails, place, i, j));
        at += 4;
    }
    at / 4
}
