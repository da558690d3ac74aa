// A version 2 job filled (request [6]): two fills over one edge table.
ghost use Rattle.std.specs.Prelude.{◌≡◌, length, Err};
ghost use Rattle.jobs.specs.Job2.{corners2, ends2, parsed2, left2};
ghost use Rattle.tatami.specs.Left.{said_filled, left};
ghost use Rattle.layers.specs.Layers.{slices, twice};
ghost use Rattle.desk.specs.Desk2.{layer_of, job2_left};

use jobs::parse2;
use layers::{Both, Layer, tatami_twice};
use refusal::Refusal;
use rules::Settings;

// A refused job, told of both fills.
fn refused(e: Refusal) -> Both
    ensures { (result.first ≡ Err e) × (result.second ≡ Err e) }
{
    Both {
        first: Err(e),
        second: Err(e),
    }
}

// What is a fill's own.
fn layer_of(g: Settings, stagger: u64, upward: bool) -> Layer
    ensures { result ≡ layer_of g stagger upward }
{
    Layer {
        spacing: g.spacing,
        len: g.len,
        inset: g.inset,
        pull: g.pull,
        stagger,
        upward,
    }
}

// The job's outline goes to the front of `corners` and `ends`, then `tatami_twice` is called with it. 2,048 corners' floats and 255 ends are room for every job.
pub fn fill_job2(
    bytes: &[u8],
    corners: &mut [f64],
    ends: &mut [usize],
    table: &mut [f64],
    places: &mut [usize],
    points: &mut [f64],
    stops: &mut [usize],
    floats: &mut [f64],
    wholes: &mut [usize],
    points2: &mut [f64],
    stops2: &mut [usize],
    floats2: &mut [f64],
    wholes2: &mut [usize],
) -> Both
    ensures places_after { twice (left (said_filled result.first) points.new stops.new floats.new wholes.new) (left (said_filled result.second) points2.new stops2.new floats2.new wholes2.new) table.new places.new ≡ job2_left bytes.now (length corners.old) (length ends.old) (slices points.old stops.old floats.old wholes.old) (slices points2.old stops2.old floats2.old wholes2.old) table.old places.old }
    ensures corners_after { corners.new ≡ left2 (parsed2 bytes.now (length corners.old) (length ends.old)) (corners2 bytes.now) corners.old }
    ensures ends_after { ends.new ≡ left2 (parsed2 bytes.now (length corners.old) (length ends.old)) (ends2 bytes.now) ends.old }
{
    match parse2(bytes, corners, ends) {
        Err(e) => refused(e),
        Ok((j, k)) => {
            let rule = j.rule;
            let g = j.settings;
            let h = k.settings;
            let first = layer_of(g, j.stagger, j.bottom_up);
            let second = layer_of(h, k.stagger, k.bottom_up);
            let n = 2 * j.corners;
            let m = j.rings;
            tatami_twice(
                &corners[..n],
                &ends[..m],
                rule,
                g.cosine,
                g.sine,
                first,
                second,
                table,
                places,
                points,
                stops,
                floats,
                wholes,
                points2,
                stops2,
                floats2,
                wholes2,
            )
        }
    }
}
