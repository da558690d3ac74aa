// Document 02's two halves of a column, each a call of its own: the underlay, which tells whether the thread ends at the far end, and the top, which is told.
#![tactic(auto)]

ghost use Rattle.std.specs.Prelude.{◌≡◌, length};
ghost use Rattle.refusal.specs.Sewn.{said_sewn};
ghost use Rattle.halves.specs.Answers.{underlaid, said_underlaid, underlay_said, underlay_output, underlay_work, top_sewn, top_output, top_work};

pub mod over;
pub mod under;

use crate::over::sewn_top;
use crate::under::sewn_underlay;
use column::topping::after_zigzag;
use refusal::{Refusal, unless};
use satin::rails::{accepted, few_corners};
use satinrules::{Satin, good_satin};

// How many points were sewn, and whether the thread ends at the far end.
#[derive(Clone, Copy)]
pub struct Underlaid {
    pub points: u64,
    pub far: bool,
}

// What was sewn, and where the thread ends.
fn told(r: Result<u64, Refusal>, far: bool) -> Result<Underlaid, Refusal>
    ensures { said_underlaid result ≡ underlaid (said_sewn r).answer (said_sewn r).points far }
{
    match r {
        Ok(points) => Ok(Underlaid { points, far }),
        Err(e) => Err(e),
    }
}

// The underlay of a satin column between two rails.
pub fn underlay(
    a: &[f64],
    b: &[f64],
    sync: &[f64],
    g: Satin,
    work: &mut [f64],
    out: &mut [f64],
) -> Result<Underlaid, Refusal>
    ensures { (said_underlaid result ≡ underlay_said a.now b.now sync.now g (length work.old) (length out.old)) × (out.new ≡ underlay_output a.now b.now sync.now g (length work.old) out.old) × (work.new ≡ underlay_work a.now b.now sync.now g work.old (length out.old)) }
{
    accepted(a, b, sync)?;
    unless(Refusal::Setting, good_satin(g))?;
    if few_corners(a, b) {
        work.fill(0.0);
        return Ok(Underlaid {
            points: 0,
            far: false,
        });
    }
    let r = sewn_underlay(a, b, sync, g, work, out);
    told(r, after_zigzag(g))
}

// The top of a satin column between two rails, turned round where the thread is at the far end.
pub fn top(
    a: &[f64],
    b: &[f64],
    sync: &[f64],
    g: Satin,
    far: bool,
    work: &mut [f64],
    out: &mut [f64],
) -> Result<u64, Refusal>
    ensures { (said_sewn result ≡ top_sewn a.now b.now sync.now g far (length work.old) (length out.old)) × (out.new ≡ top_output a.now b.now sync.now g far (length work.old) out.old) × (work.new ≡ top_work a.now b.now sync.now g far work.old (length out.old)) }
{
    accepted(a, b, sync)?;
    unless(Refusal::Setting, good_satin(g))?;
    if few_corners(a, b) {
        work.fill(0.0);
        return Ok(0);
    }
    sewn_top(a, b, sync, g, far, work, out)
}
