// Both halves of a column, underlay and top, on rails and settings that were accepted.
ghost use Rattle.std.specs.Prelude.{◌≡◌, false, ◌+◌, ◌*◌, ◌^◌, ◌<◌, ◌≤◌, length};
ghost use Rattle.refusal.specs.Sewn.{said_sewn, sewn, output};
ghost use Rattle.seqs.specs.Slices.{put, capped};
ghost use Rattle.geom.specs.Sewing.{flat, fitted};
ghost use Rattle.satinrules.specs.Pairs.{few};
ghost use Rattle.satinrules.specs.Column.{column};
ghost use Rattle.satinrules.specs.Calls.{rails_of, worked};
ghost use Rattle.pairing.specs.Store.{Ended, Sound};
ghost use Rattle.column.specs.Sized.{TopLaid};
ghost use Rattle.column.specs.Halves.{Ready, path_in, top_path, column_passed};

use crate::sized::{Passes, column_most, column_sized, passes_of};
use crate::topping::{after_zigzag, count_top, put_top};
use geom::sewing::add_within;
use pairing::Rails;
use pairing::places::Course;
use pairing::store::put_rails;
use passes::top::put_stitches;
use refusal::Refusal;
use satin::rails::{BOTH_RAILS, need};
use satin::underlay::{count_underlay, put_underlay};
use satinrules::Satin;

// How many points both halves have, or room + 1 where they pass the room. The top's stitches stand in the working slice from then on, behind the pairs they go over.
pub fn count_halves(
    work: &mut [f64],
    a: &[f64],
    b: &[f64],
    course: Course,
    p: Passes,
    g: Satin,
    room: u64,
) -> u64
    requires { Ready a.now b.now course.sync.now g course.ends p (length work.old) × TopLaid a.now b.now course.sync.now course.ends p work.old × (room < 2 ^ 63) }
    ensures { (result ≡ capped room (length (column (rails_of a.now b.now course.entry.sync.now) g))) × (length work.new ≡ length work.old) × (path_in p work.new ≡ top_path a.now b.now course.entry.sync.now g) }
{
    put_stitches(work, p.t, g);
    let from = 4 * p.t;
    let points = count_top(&work[from..from + 4 * p.t], g, room);
    let u = p.under;
    add_within(points, count_underlay(u, g) as u64, room)
}

// Both halves to the front of out. The top goes first, behind where the underlay comes to stand: its stitches stand in the working slice.
pub fn put_halves(work: &mut [f64], out: &mut [f64], rails: Rails, p: Passes, g: Satin)
    requires { Ready rails.a.now rails.b.now rails.course.sync.now g rails.course.ends p (length work.old) × (path_in p work.old ≡ top_path rails.a.now rails.b.now rails.course.sync.now g) × (2 * length (column (rails_of rails.a.now rails.b.now rails.course.sync.now) g) ≤ length out.old) }
    ensures { (out.new ≡ put out.old 0 (flat (column (rails_of rails.entry.a.now rails.entry.b.now rails.entry.course.sync.now) g))) × (length work.new ≡ length work.old) }
{
    let u = p.under;
    let from = 4 * p.t;
    let under = count_underlay(u, g);
    let far = after_zigzag(g);
    put_top(out, 2 * under, &work[from..from + 4 * p.t], g, far);
    put_underlay(work, out, rails, u, g);
}

// The column to the front of out, or ROOM and nothing.
pub fn sew_halves(
    work: &mut [f64],
    out: &mut [f64],
    rails: Rails,
    p: Passes,
    g: Satin,
) -> Result<u64, Refusal>
    requires { Ready rails.a.now rails.b.now rails.course.sync.now g rails.course.ends p (length work.old) × TopLaid rails.a.now rails.b.now rails.course.sync.now rails.course.ends p work.old }
    ensures { (said_sewn result ≡ sewn (fitted (column (rails_of rails.entry.a.now rails.entry.b.now rails.entry.course.sync.now) g) (length out.old)) (length (column (rails_of rails.entry.a.now rails.entry.b.now rails.entry.course.sync.now) g))) × (out.new ≡ output (fitted (column (rails_of rails.entry.a.now rails.entry.b.now rails.entry.course.sync.now) g) (length out.old)) (flat (column (rails_of rails.entry.a.now rails.entry.b.now rails.entry.course.sync.now) g)) out.old) × (length work.new ≡ length work.old) }
{
    let room = (out.len() / 2) as u64;
    let points = count_halves(work, rails.a, rails.b, rails.course, p, g, room);
    if points > room {
        return Err(Refusal::Room);
    }
    put_halves(work, out, rails, p, g);
    Ok(points)
}

// The column to the front of out, by the running lengths of both rails; or SIZE, WORK or ROOM and nothing.
fn column_along(rails: Rails, g: Satin, work: &mut [f64], out: &mut [f64]) -> Result<u64, Refusal>
    requires { (few (rails_of rails.a.now rails.b.now rails.course.sync.now) ≡ false) × Ended rails.a.now rails.b.now rails.course.ends }
    ensures { (said_sewn result ≡ sewn (column_passed rails.entry.a.now rails.entry.b.now rails.entry.course.sync.now g (length work.old) (length out.old)) (length (column (rails_of rails.entry.a.now rails.entry.b.now rails.entry.course.sync.now) g))) × (out.new ≡ output (column_passed rails.entry.a.now rails.entry.b.now rails.entry.course.sync.now g (length work.old) (length out.old)) (flat (column (rails_of rails.entry.a.now rails.entry.b.now rails.entry.course.sync.now) g)) out.old) × (work.new ≡ worked (column_passed rails.entry.a.now rails.entry.b.now rails.entry.course.sync.now g (length work.old) (length out.old)) work.old) }
{
    if !column_sized(rails.course, g) {
        return Err(Refusal::Size);
    }
    let p = passes_of(work, rails, g);
    if work.len() < need(rails.a, rails.b, rails.course.sync, column_most(p)) {
        work.fill(0.0);
        return Err(Refusal::Work);
    }
    let r = sew_halves(work, out, rails, p, g);
    work.fill(0.0);
    r
}

// The column to the front of out; or SIZE, WORK or ROOM and nothing. The running lengths stand in an array of its own, since SIZE hangs on them and leaves the working slice as it was.
pub fn sewn_column(
    a: &[f64],
    b: &[f64],
    sync: &[f64],
    g: Satin,
    work: &mut [f64],
    out: &mut [f64],
) -> Result<u64, Refusal>
    requires { Sound a.now b.now × (few (rails_of a.now b.now sync.now) ≡ false) }
    ensures { (said_sewn result ≡ sewn (column_passed a.now b.now sync.now g (length work.old) (length out.old)) (length (column (rails_of a.now b.now sync.now) g))) × (out.new ≡ output (column_passed a.now b.now sync.now g (length work.old) (length out.old)) (flat (column (rails_of a.now b.now sync.now) g)) out.old) × (work.new ≡ worked (column_passed a.now b.now sync.now g (length work.old) (length out.old)) work.old) }
{
    let mut lengths = [0.0f64; BOTH_RAILS];
    put_rails(&mut lengths, a, b);
    column_along(Rails::of(a, b, sync, &lengths), g, work, out)
}
