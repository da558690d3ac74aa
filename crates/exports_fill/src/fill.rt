// The fill: a call answers document 01's number, and stores how many sections, points or pieces it wrote, none after a refusal.
ghost use Rattle.std.specs.Prelude.{◌≡◌, length};
ghost use Rattle.tatami.specs.Left.{said_filled, said_listed, left, left_list, tatami_left, row_list_left};
ghost use Rattle.exports.specs.Stored.{rule_of};
ghost use Rattle.fillroom.specs.Room.{room_of};
ghost use Rattle.exports_fill.specs.Fills.{settings, filled, listed};
ghost use Rattle.jobs.specs.Job.{parsed, corners as Job·corners, ends as Job·ends, left as Job·left};
ghost use Rattle.desk.specs.Desk.{job_left};

use desk::fill_job;
use exports::line::store_count;
use exports::shape::rule_of;
use fillroom::fill_room;
use refusal::Refusal;
use rules::Settings;
use tatami::Filled;

// The answer's number; a refusal counts no section and no point.
pub fn store_filled(r: Result<Filled, Refusal>, sections: &mut u64, count: &mut u64) -> u64
    ensures { filled result sections.new count.new ≡ said_filled r }
{
    match r {
        Ok(f) => {
            *sections = f.sections;
            *count = f.points;
            0
        }
        Err(e) => {
            *sections = 0;
            *count = 0;
            u64::from(e)
        }
    }
}

// The same of a list's pieces.
pub fn store_listed(r: Result<u64, Refusal>, pieces: &mut u64) -> u64
    ensures { listed result pieces.new ≡ said_listed r }
{
    store_count(r, pieces)
}

#[unsafe(no_mangle)]
pub extern "C" fn beahcerot_tatami(
    corners: &[f64],
    ends: &[usize],
    rule: u64,
    spacing: f64,
    len: f64,
    inset: f64,
    pull: f64,
    cosine: f64,
    sine: f64,
    stagger: u64,
    upward: bool,
    floats: &mut [f64],
    wholes: &mut [usize],
    points: &mut [f64],
    stops: &mut [usize],
    sections: &mut u64,
    count: &mut u64,
) -> u64
    ensures { left (filled result sections.new count.new) points.new stops.new floats.new wholes.new ≡ tatami_left corners.now ends.now (rule_of rule) (settings spacing len inset pull cosine sine) stagger upward points.old stops.old floats.old wholes.old }
{
    let g = Settings {
        spacing,
        len,
        inset,
        pull,
        cosine,
        sine,
    };
    let rule = rule_of(rule);
    let r = tatami::tatami(
        corners, ends, rule, g, stagger, upward, points, stops, floats, wholes,
    );
    store_filled(r, sections, count)
}

#[unsafe(no_mangle)]
pub extern "C" fn beahcerot_row_list(
    corners: &[f64],
    ends: &[usize],
    rule: u64,
    spacing: f64,
    len: f64,
    inset: f64,
    pull: f64,
    cosine: f64,
    sine: f64,
    stagger: u64,
    upward: bool,
    floats: &mut [f64],
    wholes: &mut [usize],
    ys: &mut [f64],
    rows: &mut [i64],
    sections: &mut [usize],
    pieces: &mut u64,
) -> u64
    ensures { left_list (listed result pieces.new) ys.new rows.new sections.new floats.new wholes.new ≡ row_list_left corners.now ends.now (rule_of rule) (settings spacing len inset pull cosine sine) stagger upward ys.old rows.old sections.old floats.old wholes.old }
{
    let g = Settings {
        spacing,
        len,
        inset,
        pull,
        cosine,
        sine,
    };
    let rule = rule_of(rule);
    let r = tatami::row_list(
        corners, ends, rule, g, stagger, upward, ys, rows, sections, floats, wholes,
    );
    store_listed(r, pieces)
}

// Working room that is always enough: how many floats and whole numbers, none after a refusal.
#[unsafe(no_mangle)]
pub extern "C" fn beahcerot_fill_room(
    corners: &[f64],
    ends: &[usize],
    spacing: f64,
    len: f64,
    inset: f64,
    pull: f64,
    cosine: f64,
    sine: f64,
    stagger: u64,
    floats: &mut u64,
    wholes: &mut u64,
) -> u64
    ensures { (result ≡ (room_of corners.now ends.now (settings spacing len inset pull cosine sine) stagger).answer) × (floats.new ≡ (room_of corners.now ends.now (settings spacing len inset pull cosine sine) stagger).floats) × (wholes.new ≡ (room_of corners.now ends.now (settings spacing len inset pull cosine sine) stagger).wholes) }
{
    let g = Settings {
        spacing,
        len,
        inset,
        pull,
        cosine,
        sine,
    };
    match fill_room(corners, ends, g, stagger) {
        Ok(r) => {
            *floats = r.floats;
            *wholes = r.wholes;
            0
        }
        Err(e) => {
            *floats = 0;
            *wholes = 0;
            u64::from(e)
        }
    }
}

// A whole job by its bytes; its outline goes to the front of `corners` and `ends`.
#[unsafe(no_mangle)]
pub extern "C" fn beahcerot_fill_job(
    bytes: &[u8],
    corners: &mut [f64],
    ends: &mut [usize],
    floats: &mut [f64],
    wholes: &mut [usize],
    points: &mut [f64],
    stops: &mut [usize],
    sections: &mut u64,
    count: &mut u64,
) -> u64
    ensures wholes_after { left (filled result sections.new count.new) points.new stops.new floats.new wholes.new ≡ job_left bytes.now (length corners.old) (length ends.old) points.old stops.old floats.old wholes.old }
    ensures corners_after { corners.new ≡ Job·left (parsed bytes.now (length corners.old) (length ends.old)) (Job·corners bytes.now) corners.old }
    ensures ends_after { ends.new ≡ Job·left (parsed bytes.now (length corners.old) (length ends.old)) (Job·ends bytes.now) ends.old }
{
    let r = fill_job(bytes, corners, ends, points, stops, floats, wholes);
    store_filled(r, sections, count)
}
