// What the marks say, counted and written.
ghost use Rattle.std.specs.Prelude.{◌≡◌, true, ◌++◌, ◌*◌, ◌≤◌, length, drop};
ghost use Rattle.seqs.specs.Lists.{sift};
ghost use Rattle.geom.specs.Outline.{points, cut, rising};
ghost use Rattle.geom.specs.Sewing.{flat};
ghost use Rattle.salvage.specs.Ring.{kept, left};
ghost use Rattle.salvage.specs.Salvage.{dropped_places, dropped_reasons};
ghost use Rattle.salvage.specs.OutlineLaws.{counted_ends};

use crate::ring::{KEPT, is_kept};
use geom::sewing::{corner, put_point};

pub fn count_kept(marks: &[usize]) -> usize
    ensures { result ≡ length (sift kept marks.now) }
{
    marks.iter().copied().filter(is_kept).count()
}

pub fn put_corners(corners: &[f64], marks: &[usize], out: &mut [f64])
    requires { (length corners.now ≡ 2 * length marks.now) × (length (flat (left marks.now (points corners.now))) ≤ length out.old) }
    ensures { out.new ≡ flat (left marks.now (points corners.now)) ++ drop (length (flat (left marks.now (points corners.now)))) out.old }
{
    let mut k = 0;
    for (i, m) in marks.iter().enumerate() {
        if *m == KEPT {
            put_point(out, k, corner(corners, 2 * i));
            k += 2;
        }
    }
}

// Where each ring ends, by how many of its corners are kept.
pub fn put_ends(ends: &[usize], marks: &[usize], out: &mut [usize])
    requires { (rising 0 ends.now (length marks.now) ≡ true) × (length ends.now ≤ length out.old) }
    ensures { out.new ≡ counted_ends 0 (cut 0 ends.now marks.now) ++ drop (length (counted_ends 0 (cut 0 ends.now marks.now))) out.old }
{
    let mut n = 0;
    let mut a = 0;
    for (k, e) in ends.iter().enumerate() {
        n += count_kept(&marks[a..*e]);
        out[k] = n;
        a = *e;
    }
}

// The place of each dropped corner, and why it was dropped.
pub fn put_dropped(marks: &[usize], places: &mut [usize], reasons: &mut [usize])
    requires { (length (dropped_places 0 marks.now) ≤ length places.old) × (length (dropped_reasons marks.now) ≤ length reasons.old) }
    ensures places_after { places.new ≡ dropped_places 0 marks.now ++ drop (length (dropped_places 0 marks.now)) places.old }
    ensures reasons_after { reasons.new ≡ dropped_reasons marks.now ++ drop (length (dropped_reasons marks.now)) reasons.old }
{
    let mut k = 0;
    for (i, m) in marks.iter().enumerate() {
        if *m != KEPT {
            places[k] = i;
            reasons[k] = *m;
            k += 1;
        }
    }
}
