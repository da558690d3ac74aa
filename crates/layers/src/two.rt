// Both fills, one after the other, over a table that stands.
ghost use Rattle.std.specs.Prelude.{◌≡◌, length};
ghost use Rattle.refusal.specs.Refusal.{DONE};
ghost use Rattle.tatami.specs.Left.{said_filled, left};
ghost use Rattle.layers.specs.Layers.{settings_of, layer_left};
ghost use Rattle.layers.specs.Stages.{Standing};

use crate::one::fill_layer;
use crate::{Both, Layer};
use outlines::FillRule;
use rules::Settings;

// kept (4): no plainer: a From would need the angle in the layer
fn settings_of(t: Layer, cosine: f64, sine: f64) -> Settings
    ensures { result ≡ settings_of t cosine sine }
{
    Settings {
        spacing: t.spacing,
        len: t.len,
        inset: t.inset,
        pull: t.pull,
        cosine,
        sine,
    }
}

// `places` is the scratch of the first, then of the second.
// kept (5): no plainer: of a struct of `&mut` slices a contract says what is left by nested pairs (`.exit.1.1.0`)
pub fn fill_both(
    corners: &[f64],
    ends: &[usize],
    rule: FillRule,
    cosine: f64,
    sine: f64,
    first: Layer,
    second: Layer,
    table: &[f64],
    e: usize,
    places: &mut [usize],
    points: &mut [f64],
    stops: &mut [usize],
    floats: &mut [f64],
    wholes: &mut [usize],
    points2: &mut [f64],
    stops2: &mut [usize],
    floats2: &mut [f64],
    wholes2: &mut [usize],
) -> Both
    requires { Standing corners.now ends.now cosine sine e table.now (length places.old) }
    ensures wholes_after { left (said_filled result.first) points.new stops.new floats.new wholes.new ≡ layer_left DONE corners.now ends.now rule (settings_of first cosine sine) first.stagger first.upward points.old stops.old floats.old wholes.old }
    ensures wholes2_after { left (said_filled result.second) points2.new stops2.new floats2.new wholes2.new ≡ layer_left DONE corners.now ends.now rule (settings_of second cosine sine) second.stagger second.upward points2.old stops2.old floats2.old wholes2.old }
{
    let g = settings_of(first, cosine, sine);
    let a = fill_layer(
        corners,
        ends,
        rule,
        g,
        first.stagger,
        first.upward,
        table,
        e,
        places,
        points,
        stops,
        floats,
        wholes,
    );
    let h = settings_of(second, cosine, sine);
    let b = fill_layer(
        corners,
        ends,
        rule,
        h,
        second.stagger,
        second.upward,
        table,
        e,
        places,
        points2,
        stops2,
        floats2,
        wholes2,
    );
    Both {
        first: a,
        second: b,
    }
}
