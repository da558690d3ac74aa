// In rows whose pieces go to the right, as those of every accepted fill do (rules/specs/Theorems: rows-rise), bisection and two
// neighbours find what a scan would.
ghost use Rattle.std.specs.Prelude.{◌≡◌, true, not, ◌&&◌, ◌+◌, ◌-◌, ◌*◌, ◌≤◌, ◌<◌, eqb, ltb, length};
ghost use Rattle.sections.specs.Mark.{hits, over, under, count_of, only_at, Within};
ghost use Rattle.sections.specs.Rises.{Rising};
ghost use Rattle.sections.specs.RiseLaws.{Between};

use crate::pair::Pair;
use crate::{overlap, piece_at};
use rules::Piece;

// The first place whose piece reaches past x.
fn first_past(pieces: &[f64], from: usize, to: usize, x: f64) -> usize
    requires { Rising pieces.now from to × (from ≤ to) × (3 * to ≤ length pieces.now) }
    ensures { Between pieces.now x from to result result }
{
    // kept (3): rule: document 01: closures become named functions, and a bisection by the library wants a closure
    let mut lo = from;
    let mut hi = to;
    while lo < hi {
        let mid = lo + (hi - lo) / 2;
        if x < pieces[3 * mid + 2] {
            hi = mid;
        } else {
            lo = mid + 1;
        }
    }
    lo
}

// The only place from b0 on, before r0, whose piece p overlaps.
pub fn only_open(l: Pair, p: Piece) -> Option<usize>
    ensures { (result ≡ only_at (hits (over l.entry.pieces.now p) l.entry.s.b0 l.entry.s.r0)) × Within result l.entry.s.b0 l.entry.s.r0 }
{
    let pieces = l.pieces;
    let r0 = l.s.r0;
    let t = first_past(pieces, l.s.b0, r0, p.xa);
    if t >= r0 {
        return None;
    }
    if !overlap(piece_at(pieces, t), p) {
        return None;
    }
    if t + 1 >= r0 {
        return Some(t);
    }
    if overlap(piece_at(pieces, t + 1), p) {
        return None;
    }
    Some(t)
}

// Whether o, which overlaps the piece at j, overlaps no other from r0 on, before r1.
pub fn meets_one(l: Pair, j: usize, o: Piece) -> bool
    requires { (l.s.r0 ≤ j) × (j < l.s.r1) × (under l.pieces.now o j ≡ true) }
    ensures { result ≡ eqb (count_of (under l.entry.pieces.now o) l.entry.s.r0 l.entry.s.r1) 1 }
{
    let before = l.s.r0 < j && overlap(o, piece_at(l.pieces, j - 1));
    let behind = j + 1 < l.s.r1 && overlap(o, piece_at(l.pieces, j + 1));
    !before && !behind
}
