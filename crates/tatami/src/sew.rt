// Tatami's stages behind the gate: sections, links, the count, the points.
ghost use Rattle.std.specs.Prelude.{◌≡◌, length};
ghost use Rattle.rules.specs.Calls.{sewn_fits};
ghost use Rattle.sewing.specs.Sewing.{Linked};
ghost use Rattle.tatami.specs.Left.{said_filled, left, left_by};
ghost use Rattle.tatami.specs.Stages.{Lent, Handed, told, field_of, Sectioned, sewn_in, tatami_of, Sewed, sewn_room};

use crate::Filled;
use finding::Plan;
use finding::find::Found;
use refusal::Refusal;
use sections::{Fill, mark_all};
use sewing::{Field, count, link, ready, write};

fn field_of(t: Plan, n: usize) -> Field
    ensures { result ≡ field_of t.entry n }
{
    let w = t.rows;
    Field {
        g: t.g,
        stagger: t.stagger,
        row: if t.upward { w.hi } else { w.lo },
        down: t.upward,
        pieces: n,
    }
}

// The sections of n pieces, marked and linked: how many.
fn sections_of(t: Plan, pieces: &[f64], numbers: &mut [usize], n: usize) -> usize
    requires { Lent t.outline.corners.now t.outline.ends.now t n pieces.now numbers.old }
    ensures { Sectioned t.entry.outline.corners.now t.entry.outline.ends.now t.entry n pieces.now numbers.new result }
{
    let f = Fill {
        rule: t.rule,
        settings: t.g,
    };
    let sections = mark_all(t.outline, f, pieces, numbers, n, t.rows.n);
    link(numbers, n, sections);
    sections
}

// The linked sections to the front of the outputs, or ROOM and nothing.
fn sew(
    f: Field,
    sections: usize,
    pieces: &[f64],
    numbers: &[usize],
    points: &mut [f64],
    stops: &mut [usize],
) -> Result<Filled, Refusal>
    requires { Linked f sections pieces.now numbers.now }
    ensures { Sewed (sewn_room (sewn_in f sections pieces.now numbers.now) points.old stops.old) (sewn_in f sections pieces.now numbers.now) points.old points.new stops.old stops.new (said_filled result) }
{
    if sections > stops.len() {
        return Err(Refusal::Room);
    }
    let room = (points.len() / 2) as u64;
    let t = ready(f);
    let Some(n) = count(pieces, numbers, &t, sections, room) else {
        return Err(Refusal::Room);
    };
    write(points, stops, pieces, numbers, &t, sections);
    Ok(Filled {
        sections: sections as u64,
        points: n,
    })
}

// The part behind the edges, sewn.
pub fn sew_pieces(
    t: Plan,
    n: usize,
    pieces: &[f64],
    numbers: &mut [usize],
    points: &mut [f64],
    stops: &mut [usize],
) -> Result<Filled, Refusal>
    requires { Lent t.outline.corners.now t.outline.ends.now t n pieces.now numbers.old }
    ensures { Sewed (sewn_room (tatami_of t.entry.outline.corners.now t.entry.outline.ends.now t.entry) points.old stops.old) (tatami_of t.entry.outline.corners.now t.entry.outline.ends.now t.entry) points.old points.new stops.old stops.new (said_filled result) }
{
    let sections = sections_of(t, pieces, numbers, n);
    sew(field_of(t, n), sections, pieces, numbers, points, stops)
}

// What was found, sewn: WORK, ROOM or the answer. The working slices are zero on the way out.
pub fn sew_found(
    t: Plan,
    found: Result<Found, Refusal>,
    points: &mut [f64],
    stops: &mut [usize],
    floats: &mut [f64],
    wholes: &mut [usize],
) -> Result<Filled, Refusal>
    requires { Handed t.outline.corners.now t.outline.ends.now t floats.old wholes.old found }
    ensures { left (said_filled result) points.new stops.new floats.new wholes.new ≡ left_by (told found (sewn_fits (tatami_of t.entry.outline.corners.now t.entry.outline.ends.now t.entry) (length points.old) (length stops.old))) (tatami_of t.entry.outline.corners.now t.entry.outline.ends.now t.entry) points.old stops.old floats.old wholes.old }
{
    let r = match found {
        Err(e) => Err(e),
        Ok(f) => sew_pieces(
            t,
            f.pieces,
            &floats[6 * f.edges..],
            &mut wholes[4 * f.edges..],
            points,
            stops,
        ),
    };
    floats.fill(0.0);
    wholes.fill(0);
    r
}
