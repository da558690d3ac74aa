// Outlines that arrive broken: stray corners dropped before a fill, and told with their places and reasons. Request [11].
#![tactic(auto)]

ghost use Rattle.std.specs.Prelude.{◌≡◌, true, ◌&&◌, ◌*◌, ◌≤◌, leb, length};
ghost use Rattle.limits.specs.Limits.{good_outline};
ghost use Rattle.salvage.specs.Salvage.{marks as marks_of, fits, said_salvaged, outcome, outcome_by, salvage_outcome};
ghost use Rattle.refusal.specs.Refusal.{ROOM as ROOM-NUMBER, unless};

pub mod marking;
pub mod ring;
pub mod writing;

use crate::marking::mark_outline;
use crate::writing::{count_kept, put_corners, put_dropped, put_ends};
use geom::Outline;
use limits::{MOST_CORNERS, outline};
use refusal::Refusal;

// How many corners are kept and how many dropped.
#[derive(Clone, Copy)]
pub struct Counts {
    pub corners: u64,
    pub dropped: u64,
}

// For so many kept corners, rings and dropped corners.
fn has_room(
    kept: usize,
    rings: usize,
    dropped: usize,
    corners: usize,
    ends: usize,
    places: usize,
    reasons: usize,
) -> bool
    requires { kept ≤ 1024 }
    ensures { result ≡ (leb (2 * kept) corners && leb rings ends && leb dropped places && leb dropped reasons) }
{
    2 * kept <= corners && rings <= ends && dropped <= places && dropped <= reasons
}

// By the marks: ROOM is decided before anything is written.
fn written(
    o: Outline,
    marks: &[usize],
    keep: &mut [f64],
    stops: &mut [usize],
    places: &mut [usize],
    reasons: &mut [usize],
) -> Result<Counts, Refusal>
    requires { (good_outline o.corners.now o.ends.now ≡ true) × (marks.now ≡ marks_of o.corners.now o.ends.now) }
    ensures { outcome (said_salvaged result) keep.new stops.new places.new reasons.new ≡ outcome_by (unless ROOM-NUMBER (fits o.entry.corners.now o.entry.ends.now (length keep.old) (length stops.old) (length places.old) (length reasons.old))) o.entry.corners.now o.entry.ends.now keep.old stops.old places.old reasons.old }
{
    let kept = count_kept(marks);
    let dropped = marks.len() - kept;
    if !has_room(
        kept,
        o.ends.len(),
        dropped,
        keep.len(),
        stops.len(),
        places.len(),
        reasons.len(),
    ) {
        return Err(Refusal::Room);
    }
    put_corners(o.corners, marks, keep);
    put_ends(o.ends, marks, stops);
    put_dropped(marks, places, reasons);
    Ok(Counts {
        corners: kept as u64,
        dropped: dropped as u64,
    })
}

// The kept corners, x before y, to the front of `keep`, and where each ring ends, in corners, to the front of `stops`;
// the place of each dropped corner to the front of `places`, and why it was dropped to the front of `reasons`.
#[tactic(auto, unfolding(crate::specs::Salvage::salvage_answer, crate::specs::Salvage::salvage_outcome, crate::specs::Salvage::outcome_by))]
pub fn salvage(
    corners: &[f64],
    ends: &[usize],
    keep: &mut [f64],
    stops: &mut [usize],
    places: &mut [usize],
    reasons: &mut [usize],
) -> Result<Counts, Refusal>
    ensures { outcome (said_salvaged result) keep.new stops.new places.new reasons.new ≡ salvage_outcome corners.now ends.now keep.old stops.old places.old reasons.old }
{
    let o = outline(corners, ends)?;
    let n = corners.len() / 2;
    let mut marks = [0usize; MOST_CORNERS];
    mark_outline(o, &mut marks[..n]);
    written(o, &marks[..n], keep, stops, places, reasons)
}
