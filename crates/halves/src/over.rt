// The top half of a column, on rails and settings that were accepted.
ghost use Rattle.std.specs.Prelude.{◌≡◌, false, ◌*◌, ◌≤◌, length};
ghost use Rattle.refusal.specs.Sewn.{said_sewn, sewn, output};
ghost use Rattle.geom.specs.Sewing.{flat, fitted};
ghost use Rattle.satinrules.specs.Pairs.{few};
ghost use Rattle.satinrules.specs.Column.{top};
ghost use Rattle.satinrules.specs.Calls.{rails_of, worked};
ghost use Rattle.pairing.specs.Store.{Ended, Sound};
ghost use Rattle.halves.specs.Sewing.{top_passed, top_over};

use column::sized::top_sized;
use column::topping::{count_top, put_top};
use pairing::Rails;
use pairing::places::pass_along;
use pairing::store::{lay_pairs, put_rails};
use passes::top::{put_stitches, spaced};
use refusal::Refusal;
use satin::rails::{BOTH_RAILS, need};
use satinrules::Satin;

// The top over the t pairs at the front of the working slice, to the front of out; or ROOM and nothing. The stitches stand behind the pairs.
fn sew_top(work: &mut [f64], out: &mut [f64], t: usize, g: Satin, far: bool) -> Result<u64, Refusal>
    requires { (1 ≤ t) × (t ≤ 65537) × (8 * t ≤ length work.old) }
    ensures { (said_sewn result ≡ sewn (fitted (top_over far g t work.old) (length out.old)) (length (top_over far g t work.old))) × (out.new ≡ output (fitted (top_over far g t work.old) (length out.old)) (flat (top_over far g t work.old)) out.old) × (length work.new ≡ length work.old) }
{
    put_stitches(work, t, g);
    let from = 4 * t;
    let room = (out.len() / 2) as u64;
    let points = count_top(&work[from..from + 4 * t], g, room);
    if points > room {
        return Err(Refusal::Room);
    }
    put_top(out, 0, &work[from..from + 4 * t], g, far);
    Ok(points)
}

// The top to the front of out, by the running lengths of both rails; or SIZE, WORK or ROOM and nothing. Its pairs are laid as they are counted, as far as the working slice has room.
fn top_along(
    rails: Rails,
    g: Satin,
    far: bool,
    work: &mut [f64],
    out: &mut [f64],
) -> Result<u64, Refusal>
    requires { (few (rails_of rails.a.now rails.b.now rails.course.sync.now) ≡ false) × Ended rails.a.now rails.b.now rails.course.ends }
    ensures { (said_sewn result ≡ sewn (top_passed rails.entry.a.now rails.entry.b.now rails.entry.course.sync.now g far (length work.old) (length out.old)) (length (top far (rails_of rails.entry.a.now rails.entry.b.now rails.entry.course.sync.now) g))) × (out.new ≡ output (top_passed rails.entry.a.now rails.entry.b.now rails.entry.course.sync.now g far (length work.old) (length out.old)) (flat (top far (rails_of rails.entry.a.now rails.entry.b.now rails.entry.course.sync.now) g)) out.old) × (work.new ≡ worked (top_passed rails.entry.a.now rails.entry.b.now rails.entry.course.sync.now g far (length work.old) (length out.old)) work.old) }
{
    let style = g.style;
    let length = rails.course.total();
    if !top_sized(rails.course, length, g) {
        return Err(Refusal::Size);
    }
    let pass = pass_along(length, spaced(style, g.spacing));
    let t = lay_pairs(work, rails, pass);
    if work.len() < need(rails.a, rails.b, rails.course.sync, t) {
        work.fill(0.0);
        return Err(Refusal::Work);
    }
    let r = sew_top(work, out, t, g, far);
    work.fill(0.0);
    r
}

// The top to the front of out; or SIZE, WORK or ROOM and nothing. The running lengths stand in an array of its own, as the column's do.
pub fn sewn_top(
    a: &[f64],
    b: &[f64],
    sync: &[f64],
    g: Satin,
    far: bool,
    work: &mut [f64],
    out: &mut [f64],
) -> Result<u64, Refusal>
    requires { Sound a.now b.now × (few (rails_of a.now b.now sync.now) ≡ false) }
    ensures { (said_sewn result ≡ sewn (top_passed a.now b.now sync.now g far (length work.old) (length out.old)) (length (top far (rails_of a.now b.now sync.now) g))) × (out.new ≡ output (top_passed a.now b.now sync.now g far (length work.old) (length out.old)) (flat (top far (rails_of a.now b.now sync.now) g)) out.old) × (work.new ≡ worked (top_passed a.now b.now sync.now g far (length work.old) (length out.old)) work.old) }
{
    let mut lengths = [0.0f64; BOTH_RAILS];
    put_rails(&mut lengths, a, b);
    top_along(Rails::of(a, b, sync, &lengths), g, far, work, out)
}
