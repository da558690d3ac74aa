// One of the two fills, over a table that stands.
ghost use Rattle.std.specs.Prelude.{◌≡◌, ◌≤◌, length};
ghost use Rattle.refusal.specs.Refusal.{DONE};
ghost use Rattle.tatami.specs.Left.{said_filled, left};
ghost use Rattle.layers.specs.Layers.{layer_left};
ghost use Rattle.layers.specs.Stages.{Standing, found_of};

use finding::find::Found;
use finding::gate::plan;
use laying::lay;
use outlines::FillRule;
use refusal::Refusal;
use rules::Settings;
use tatami::Filled;
use tatami::sew::sew_found;

// What was found of n pieces, with no edge in front of them.
fn found_of(n: usize, floats: usize, wholes: usize) -> Result<Found, Refusal>
    requires { n ≤ 2097152 }
    ensures { result ≡ found_of n floats wholes }
{
    if floats < 4 * n || wholes < 6 * n {
        Err(Refusal::Work)
    } else {
        Ok(Found {
            edges: 0,
            pieces: n,
        })
    }
}

// 1, 2 and 4 were asked for the table, so the gate answers 3, 5 or the rows.
pub fn fill_layer(
    corners: &[f64],
    ends: &[usize],
    rule: FillRule,
    g: Settings,
    stagger: u64,
    upward: bool,
    table: &[f64],
    e: usize,
    places: &mut [usize],
    points: &mut [f64],
    stops: &mut [usize],
    floats: &mut [f64],
    wholes: &mut [usize],
) -> Result<Filled, Refusal>
    requires { Standing corners.now ends.now g.cosine g.sine e table.now (length places.old) }
    ensures { left (said_filled result) points.new stops.new floats.new wholes.new ≡ layer_left DONE corners.now ends.now rule g stagger upward points.old stops.old floats.old wholes.old }
{
    let t = plan(corners, ends, rule, g, stagger, upward)?;
    let n = lay(
        table, e, places, t.rule, t.g, t.upward, t.rows, floats, wholes,
    );
    let found = found_of(n, floats.len(), wholes.len());
    sew_found(t, found, points, stops, floats, wholes)
}
