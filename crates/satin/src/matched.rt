// The pairs of rails that were accepted.
ghost use Rattle.std.specs.Prelude.{◌≡◌, false, length};
ghost use Rattle.refusal.specs.Sewn.{said_sewn, sewn, output};
ghost use Rattle.geom.specs.Sewing.{flat};
ghost use Rattle.satinrules.specs.Pairs.{few, pairs};
ghost use Rattle.satinrules.specs.Calls.{rails_of, both_points, worked};
ghost use Rattle.pairing.specs.Store.{Ended, Sound};
ghost use Rattle.satin.specs.Passed.{pairs_passed};

use crate::rails::{BOTH_RAILS, need};
use crate::slices::copy;
use limits::MOST_PAIRS;
use pairing::Rails;
use pairing::store::{lay_pairs, put_rails};
use refusal::Refusal;

// The pairs to the front of out, by the running lengths of both rails.
fn pairs_along(rails: Rails, step: f64, work: &mut [f64], out: &mut [f64]) -> Result<u64, Refusal>
    requires { (few (rails_of rails.a.now rails.b.now rails.course.sync.now) ≡ false) × Ended rails.a.now rails.b.now rails.course.ends }
    ensures { (said_sewn result ≡ sewn (pairs_passed rails.entry.a.now rails.entry.b.now rails.entry.course.sync.now step (length work.old) (length out.old)) (length (both_points (pairs (rails_of rails.entry.a.now rails.entry.b.now rails.entry.course.sync.now) step)))) × (out.new ≡ output (pairs_passed rails.entry.a.now rails.entry.b.now rails.entry.course.sync.now step (length work.old) (length out.old)) (flat (both_points (pairs (rails_of rails.entry.a.now rails.entry.b.now rails.entry.course.sync.now) step))) out.old) × (work.new ≡ worked (pairs_passed rails.entry.a.now rails.entry.b.now rails.entry.course.sync.now step (length work.old) (length out.old)) work.old) }
{
    let pass = rails.course.pass(step);
    if pass.n > MOST_PAIRS {
        return Err(Refusal::Size);
    }
    let n = lay_pairs(work, rails, pass);
    if work.len() < need(rails.a, rails.b, rails.course.sync, n) {
        work.fill(0.0);
        return Err(Refusal::Work);
    }
    if out.len() < 4 * n {
        work.fill(0.0);
        return Err(Refusal::Room);
    }
    copy(out, &work[..4 * n]);
    work.fill(0.0);
    Ok((2 * n) as u64)
}

// The pairs to the front of out, four numbers each; or SIZE, WORK or ROOM and nothing. The running lengths stand in an array of its own, since SIZE hangs on them and leaves the working slice as it was.
pub fn sewn_pairs(
    a: &[f64],
    b: &[f64],
    sync: &[f64],
    step: f64,
    work: &mut [f64],
    out: &mut [f64],
) -> Result<u64, Refusal>
    requires { Sound a.now b.now × (few (rails_of a.now b.now sync.now) ≡ false) }
    ensures { (said_sewn result ≡ sewn (pairs_passed a.now b.now sync.now step (length work.old) (length out.old)) (length (both_points (pairs (rails_of a.now b.now sync.now) step)))) × (out.new ≡ output (pairs_passed a.now b.now sync.now step (length work.old) (length out.old)) (flat (both_points (pairs (rails_of a.now b.now sync.now) step))) out.old) × (work.new ≡ worked (pairs_passed a.now b.now sync.now step (length work.old) (length out.old)) work.old) }
{
    let mut lengths = [0.0f64; BOTH_RAILS];
    put_rails(&mut lengths, a, b);
    pairs_along(Rails::of(a, b, sync, &lengths), step, work, out)
}
