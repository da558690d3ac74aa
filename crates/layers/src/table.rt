// The edge table of both fills, prepared once from rings, cosine and sine.
ghost use Rattle.std.specs.Prelude.{◌≡◌};
ghost use Rattle.layers.specs.Layers.{turn_of};
ghost use Rattle.layers.specs.Stages.{Prepared};

use edges::build;
use limits::{good_numbers, good_turn, outline};
use refusal::Refusal;
use rules::Settings;

// The settings that the table asks for: a fill's own don't count.
fn turn_of(cosine: f64, sine: f64) -> Settings
    ensures { result ≡ turn_of cosine sine }
{
    Settings {
        spacing: 0.0,
        len: 0.0,
        inset: 0.0,
        pull: 0.0,
        cosine,
        sine,
    }
}

// The kept edges to `table`, where the sweep has `places` whole numbers of its own: how many stand, or none where a slice is too short. 1, 2 and 4 leave the table as it was.
pub fn prepare(
    corners: &[f64],
    ends: &[usize],
    cosine: f64,
    sine: f64,
    table: &mut [f64],
    places: usize,
) -> Result<Option<usize>, Refusal>
    ensures { Prepared corners.now ends.now cosine sine table.old table.new places result }
{
    let o = outline(corners, ends)?;
    if !good_numbers(corners) {
        return Err(Refusal::Number);
    }
    if !good_turn(cosine, sine) {
        return Err(Refusal::Turn);
    }
    let e = build(o, turn_of(cosine, sine), table);
    if table.len() < 6 * e {
        return Ok(None);
    }
    if places < 4 * e {
        return Ok(None);
    }
    Ok(Some(e))
}
