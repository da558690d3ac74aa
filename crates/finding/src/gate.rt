// Checks 1 to 5, which look at no slice but the outline.
ghost use Rattle.std.specs.Prelude.{◌≡◌};
ghost use Rattle.rules.specs.Fill.{good_settings};
ghost use Rattle.finding.specs.Stages.{Gated, Planned};

use crate::Plan;
use edges::{Rows, rows_of};
use geom::Outline;
use limits::{
    MOST_ROWS, good_inset, good_len, good_numbers, good_spacing, good_stagger, good_turn, outline,
};
use outlines::FillRule;
use refusal::Refusal;
use rules::Settings;

#[tactic(auto, unfolding(rules::specs::Fill::good_settings))]
fn good_settings(g: Settings, stagger: u64) -> bool
    ensures { result ≡ good_settings g stagger }
{
    good_spacing(g.spacing)
        && good_len(g.len)
        && good_inset(g.inset)
        && good_inset(g.pull)
        && good_stagger(stagger)
}

// The rows of an accepted fill.
#[tactic(auto, unfolding(crate::specs::Stages::Gated, rules::specs::Fill::gate))]
pub fn gate(corners: &[f64], ends: &[usize], g: Settings, stagger: u64) -> Result<Rows, Refusal>
    ensures { Gated corners.now ends.now g stagger result }
{
    let o = outline(corners, ends)?;
    if !good_numbers(corners) {
        return Err(Refusal::Number);
    }
    if !good_settings(g, stagger) {
        return Err(Refusal::Setting);
    }
    if !good_turn(g.cosine, g.sine) {
        return Err(Refusal::Turn);
    }
    let w = rows_of(o, g);
    if w.n > MOST_ROWS {
        return Err(Refusal::Size);
    }
    Ok(w)
}

// A fill that has passed the gate.
#[tactic(auto, unfolding(crate::specs::Stages::Gated, crate::specs::Stages::Planned))]
pub fn plan<'a>(
    corners: &'a [f64],
    ends: &'a [usize],
    rule: FillRule,
    g: Settings,
    stagger: u64,
    upward: bool,
) -> Result<Plan<'a>, Refusal>
    ensures { Planned corners.now ends.now rule g stagger upward result }
{
    let rows = gate(corners, ends, g, stagger)?;
    Ok(Plan {
        outline: Outline { corners, ends },
        rule,
        g,
        stagger,
        upward,
        rows,
    })
}
