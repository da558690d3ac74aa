// The plain engine (request [8]): the fill's two calls with no edge table, and a need of their own at WORK.
ghost use Rattle.std.specs.Prelude.{◌≡◌};
ghost use Rattle.tatami.specs.Left.{left, left_list};
ghost use Rattle.plain.specs.Plain.{plain_tatami_left, plain_row_list_left};
ghost use Rattle.exports.specs.Stored.{rule_of};
ghost use Rattle.exports_fill.specs.Fills.{settings, filled, listed};

use crate::fill::{store_filled, store_listed};
use exports::shape::rule_of;
use rules::Settings;

#[unsafe(no_mangle)]
pub extern "C" fn beahcerot_plain_tatami(
    corners: &[f64],
    ends: &[usize],
    rule: u64,
    spacing: f64,
    len: f64,
    inset: f64,
    pull: f64,
    cosine: f64,
    sine: f64,
    stagger: u64,
    upward: bool,
    floats: &mut [f64],
    wholes: &mut [usize],
    points: &mut [f64],
    stops: &mut [usize],
    sections: &mut u64,
    count: &mut u64,
) -> u64
    ensures { left (filled result sections.new count.new) points.new stops.new floats.new wholes.new ≡ plain_tatami_left corners.now ends.now (rule_of rule) (settings spacing len inset pull cosine sine) stagger upward points.old stops.old floats.old wholes.old }
{
    let g = Settings {
        spacing,
        len,
        inset,
        pull,
        cosine,
        sine,
    };
    let rule = rule_of(rule);
    let r = plain::tatami(
        corners, ends, rule, g, stagger, upward, points, stops, floats, wholes,
    );
    store_filled(r, sections, count)
}

#[unsafe(no_mangle)]
pub extern "C" fn beahcerot_plain_row_list(
    corners: &[f64],
    ends: &[usize],
    rule: u64,
    spacing: f64,
    len: f64,
    inset: f64,
    pull: f64,
    cosine: f64,
    sine: f64,
    stagger: u64,
    upward: bool,
    floats: &mut [f64],
    wholes: &mut [usize],
    ys: &mut [f64],
    rows: &mut [i64],
    sections: &mut [usize],
    pieces: &mut u64,
) -> u64
    ensures { left_list (listed result pieces.new) ys.new rows.new sections.new floats.new wholes.new ≡ plain_row_list_left corners.now ends.now (rule_of rule) (settings spacing len inset pull cosine sine) stagger upward ys.old rows.old sections.old floats.old wholes.old }
{
    let g = Settings {
        spacing,
        len,
        inset,
        pull,
        cosine,
        sine,
    };
    let rule = rule_of(rule);
    let r = plain::row_list(
        corners, ends, rule, g, stagger, upward, ys, rows, sections, floats, wholes,
    );
    store_listed(r, pieces)
}
