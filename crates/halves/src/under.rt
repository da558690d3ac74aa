// The underlay half of a column, on rails and settings that were accepted.
ghost use Rattle.std.specs.Prelude.{◌≡◌, false, length};
ghost use Rattle.refusal.specs.Sewn.{said_sewn, sewn, output};
ghost use Rattle.geom.specs.Sewing.{flat, fitted};
ghost use Rattle.satinrules.specs.Pairs.{few};
ghost use Rattle.satinrules.specs.Column.{underlay};
ghost use Rattle.satinrules.specs.Calls.{rails_of, worked};
ghost use Rattle.pairing.specs.Store.{Ended, Sound};
ghost use Rattle.column.specs.Halves.{UnderReady};
ghost use Rattle.halves.specs.Sewing.{underlay_passed};

use column::sized::{underlay_most, underlay_passes, underlay_sized};
use pairing::Rails;
use pairing::store::put_rails;
use refusal::Refusal;
use satin::rails::{BOTH_RAILS, need};
use satin::underlay::{Under, count_underlay, put_underlay};
use satinrules::Satin;

// The underlay to the front of out, or ROOM and nothing.
fn sew_underlay(
    work: &mut [f64],
    out: &mut [f64],
    rails: Rails,
    u: Under,
    g: Satin,
) -> Result<u64, Refusal>
    requires { UnderReady rails.a.now rails.b.now rails.course.sync.now g rails.course.ends u (length work.old) }
    ensures { (said_sewn result ≡ sewn (fitted (underlay (rails_of rails.entry.a.now rails.entry.b.now rails.entry.course.sync.now) g) (length out.old)) (length (underlay (rails_of rails.entry.a.now rails.entry.b.now rails.entry.course.sync.now) g))) × (out.new ≡ output (fitted (underlay (rails_of rails.entry.a.now rails.entry.b.now rails.entry.course.sync.now) g) (length out.old)) (flat (underlay (rails_of rails.entry.a.now rails.entry.b.now rails.entry.course.sync.now) g)) out.old) × (length work.new ≡ length work.old) }
{
    let points = count_underlay(u, g);
    if points > out.len() / 2 {
        return Err(Refusal::Room);
    }
    put_underlay(work, out, rails, u, g);
    Ok(points as u64)
}

// The underlay to the front of out, by the running lengths of both rails; or SIZE, WORK or ROOM and nothing.
fn underlay_along(rails: Rails, g: Satin, work: &mut [f64], out: &mut [f64]) -> Result<u64, Refusal>
    requires { (few (rails_of rails.a.now rails.b.now rails.course.sync.now) ≡ false) × Ended rails.a.now rails.b.now rails.course.ends }
    ensures { (said_sewn result ≡ sewn (underlay_passed rails.entry.a.now rails.entry.b.now rails.entry.course.sync.now g (length work.old) (length out.old)) (length (underlay (rails_of rails.entry.a.now rails.entry.b.now rails.entry.course.sync.now) g))) × (out.new ≡ output (underlay_passed rails.entry.a.now rails.entry.b.now rails.entry.course.sync.now g (length work.old) (length out.old)) (flat (underlay (rails_of rails.entry.a.now rails.entry.b.now rails.entry.course.sync.now) g)) out.old) × (work.new ≡ worked (underlay_passed rails.entry.a.now rails.entry.b.now rails.entry.course.sync.now g (length work.old) (length out.old)) work.old) }
{
    let length = rails.course.total();
    if !underlay_sized(rails.course, length, g) {
        return Err(Refusal::Size);
    }
    let u = underlay_passes(rails.course, length, g);
    if work.len() < need(rails.a, rails.b, rails.course.sync, underlay_most(u)) {
        work.fill(0.0);
        return Err(Refusal::Work);
    }
    let r = sew_underlay(work, out, rails, u, g);
    work.fill(0.0);
    r
}

// The underlay to the front of out; or SIZE, WORK or ROOM and nothing. The running lengths stand in an array of its own, as the column's do.
pub fn sewn_underlay(
    a: &[f64],
    b: &[f64],
    sync: &[f64],
    g: Satin,
    work: &mut [f64],
    out: &mut [f64],
) -> Result<u64, Refusal>
    requires { Sound a.now b.now × (few (rails_of a.now b.now sync.now) ≡ false) }
    ensures { (said_sewn result ≡ sewn (underlay_passed a.now b.now sync.now g (length work.old) (length out.old)) (length (underlay (rails_of a.now b.now sync.now) g))) × (out.new ≡ output (underlay_passed a.now b.now sync.now g (length work.old) (length out.old)) (flat (underlay (rails_of a.now b.now sync.now) g)) out.old) × (work.new ≡ worked (underlay_passed a.now b.now sync.now g (length work.old) (length out.old)) work.old) }
{
    let mut lengths = [0.0f64; BOTH_RAILS];
    put_rails(&mut lengths, a, b);
    underlay_along(Rails::of(a, b, sync, &lengths), g, work, out)
}
