// Document 01's call `column`: the first check that applies answers, and a refusal writes nothing.
#![tactic(auto)]

ghost use Rattle.std.specs.Prelude.{◌≡◌, length};
ghost use Rattle.refusal.specs.Sewn.{said_sewn};
ghost use Rattle.satinrules.specs.Calls.{column_sewn, column_output, column_work};

pub mod halves;
pub mod sized;
pub mod topping;
pub mod turning;

use crate::halves::sewn_column;
use refusal::{Refusal, unless};
use satin::rails::{accepted, few_corners};
use satinrules::{Satin, good_satin};

// A satin column between two rails: underlay, then the top.
pub fn column(
    a: &[f64],
    b: &[f64],
    sync: &[f64],
    g: Satin,
    work: &mut [f64],
    out: &mut [f64],
) -> Result<u64, Refusal>
    ensures { (said_sewn result ≡ column_sewn a.now b.now sync.now g (length work.old) (length out.old)) × (out.new ≡ column_output a.now b.now sync.now g (length work.old) out.old) × (work.new ≡ column_work a.now b.now sync.now g work.old (length out.old)) }
{
    accepted(a, b, sync)?;
    unless(Refusal::Setting, good_satin(g))?;
    if few_corners(a, b) {
        work.fill(0.0);
        return Ok(0);
    }
    sewn_column(a, b, sync, g, work, out)
}
