// Two fills over one edge table: the call answers the first fill's number and stores the second's, and for each how many sections and points it wrote, none after a refusal.
ghost use Rattle.std.specs.Prelude.{◌≡◌, length};
ghost use Rattle.jobs.specs.Job2.{corners2, ends2, parsed2, left2};
ghost use Rattle.tatami.specs.Left.{left};
ghost use Rattle.layers.specs.Layers.{slices, twice, twice_left};
ghost use Rattle.desk.specs.Desk2.{job2_left};
ghost use Rattle.exports.specs.Stored.{rule_of};
ghost use Rattle.exports_fill.specs.Fills.{filled, layer};

use crate::fill::store_filled;
use desk::two::fill_job2;
use exports::shape::rule_of;
use layers::{Layer, tatami_twice};

#[unsafe(no_mangle)]
pub extern "C" fn beahcerot_tatami_twice(
    corners: &[f64],
    ends: &[usize],
    rule: u64,
    cosine: f64,
    sine: f64,
    spacing: f64,
    len: f64,
    inset: f64,
    pull: f64,
    stagger: u64,
    upward: bool,
    spacing2: f64,
    len2: f64,
    inset2: f64,
    pull2: f64,
    stagger2: u64,
    upward2: bool,
    table: &mut [f64],
    places: &mut [usize],
    floats: &mut [f64],
    wholes: &mut [usize],
    points: &mut [f64],
    stops: &mut [usize],
    floats2: &mut [f64],
    wholes2: &mut [usize],
    points2: &mut [f64],
    stops2: &mut [usize],
    sections: &mut u64,
    count: &mut u64,
    answer2: &mut u64,
    sections2: &mut u64,
    count2: &mut u64,
) -> u64
    ensures { twice (left (filled result sections.new count.new) points.new stops.new floats.new wholes.new) (left (filled answer2.new sections2.new count2.new) points2.new stops2.new floats2.new wholes2.new) table.new places.new ≡ twice_left corners.now ends.now (rule_of rule) cosine sine (layer spacing len inset pull stagger upward) (layer spacing2 len2 inset2 pull2 stagger2 upward2) (slices points.old stops.old floats.old wholes.old) (slices points2.old stops2.old floats2.old wholes2.old) table.old places.old }
{
    let first = Layer {
        spacing,
        len,
        inset,
        pull,
        stagger,
        upward,
    };
    let second = Layer {
        spacing: spacing2,
        len: len2,
        inset: inset2,
        pull: pull2,
        stagger: stagger2,
        upward: upward2,
    };
    let rule = rule_of(rule);
    let r = tatami_twice(
        corners, ends, rule, cosine, sine, first, second, table, places, points, stops, floats,
        wholes, points2, stops2, floats2, wholes2,
    );
    *answer2 = store_filled(r.second, sections2, count2);
    store_filled(r.first, sections, count)
}

// A version 2 job by its bytes; its outline goes to the front of `corners` and `ends`.
#[unsafe(no_mangle)]
pub extern "C" fn beahcerot_fill_job2(
    bytes: &[u8],
    corners: &mut [f64],
    ends: &mut [usize],
    table: &mut [f64],
    places: &mut [usize],
    floats: &mut [f64],
    wholes: &mut [usize],
    points: &mut [f64],
    stops: &mut [usize],
    floats2: &mut [f64],
    wholes2: &mut [usize],
    points2: &mut [f64],
    stops2: &mut [usize],
    sections: &mut u64,
    count: &mut u64,
    answer2: &mut u64,
    sections2: &mut u64,
    count2: &mut u64,
) -> u64
    ensures places_after { twice (left (filled result sections.new count.new) points.new stops.new floats.new wholes.new) (left (filled answer2.new sections2.new count2.new) points2.new stops2.new floats2.new wholes2.new) table.new places.new ≡ job2_left bytes.now (length corners.old) (length ends.old) (slices points.old stops.old floats.old wholes.old) (slices points2.old stops2.old floats2.old wholes2.old) table.old places.old }
    ensures corners_after { corners.new ≡ left2 (parsed2 bytes.now (length corners.old) (length ends.old)) (corners2 bytes.now) corners.old }
    ensures ends_after { ends.new ≡ left2 (parsed2 bytes.now (length corners.old) (length ends.old)) (ends2 bytes.now) ends.old }
{
    let both = fill_job2(
        bytes, corners, ends, table, places, points, stops, floats, wholes, points2, stops2,
        floats2, wholes2,
    );
    *answer2 = store_filled(both.second, sections2, count2);
    store_filled(both.first, sections, count)
}
