// The fill. Each calls the function of its name in `exports_fill::fill`, which says what it does, and states its clauses.
ghost use Rattle.std.specs.Prelude.{◌≡◌, length};
ghost use Rattle.tatami.specs.Left.{left, left_list, tatami_left, row_list_left};
ghost use Rattle.exports.specs.Stored.{rule_of};
ghost use Rattle.fillroom.specs.Room.{room_of};
ghost use Rattle.exports_fill.specs.Fills.{settings, filled, listed};
ghost use Rattle.jobs.specs.Job.{parsed, corners as Job·corners, ends as Job·ends, left as Job·left};
ghost use Rattle.desk.specs.Desk.{job_left};

#[unsafe(no_mangle)]
pub extern "C" fn beahcerot_tatami(
    corners: &[f64],
    ends: &[usize],
    rule: u64,
    spacing: f64,
    len: f64,
    inset: f64,
    pull: f64,
    cosine: f64,
    sine: f64,
    stagger: u64,
    upward: bool,
    floats: &mut [f64],
    wholes: &mut [usize],
    points: &mut [f64],
    stops: &mut [usize],
    sections: &mut u64,
    count: &mut u64,
) -> u64
    ensures { left (filled result sections.new count.new) points.new stops.new floats.new wholes.new ≡ tatami_left corners.now ends.now (rule_of rule) (settings spacing len inset pull cosine sine) stagger upward points.old stops.old floats.old wholes.old }
{
    exports_fill::fill::beahcerot_tatami(
        corners, ends, rule, spacing, len, inset, pull, cosine, sine, stagger, upward, floats,
        wholes, points, stops, sections, count,
    )
}

#[unsafe(no_mangle)]
pub extern "C" fn beahcerot_row_list(
    corners: &[f64],
    ends: &[usize],
    rule: u64,
    spacing: f64,
    len: f64,
    inset: f64,
    pull: f64,
    cosine: f64,
    sine: f64,
    stagger: u64,
    upward: bool,
    floats: &mut [f64],
    wholes: &mut [usize],
    ys: &mut [f64],
    rows: &mut [i64],
    sections: &mut [usize],
    pieces: &mut u64,
) -> u64
    ensures { left_list (listed result pieces.new) ys.new rows.new sections.new floats.new wholes.new ≡ row_list_left corners.now ends.now (rule_of rule) (settings spacing len inset pull cosine sine) stagger upward ys.old rows.old sections.old floats.old wholes.old }
{
    exports_fill::fill::beahcerot_row_list(
        corners, ends, rule, spacing, len, inset, pull, cosine, sine, stagger, upward, floats,
        wholes, ys, rows, sections, pieces,
    )
}

#[unsafe(no_mangle)]
pub extern "C" fn beahcerot_fill_room(
    corners: &[f64],
    ends: &[usize],
    spacing: f64,
    len: f64,
    inset: f64,
    pull: f64,
    cosine: f64,
    sine: f64,
    stagger: u64,
    floats: &mut u64,
    wholes: &mut u64,
) -> u64
    ensures { (result ≡ (room_of corners.now ends.now (settings spacing len inset pull cosine sine) stagger).answer) × (floats.new ≡ (room_of corners.now ends.now (settings spacing len inset pull cosine sine) stagger).floats) × (wholes.new ≡ (room_of corners.now ends.now (settings spacing len inset pull cosine sine) stagger).wholes) }
{
    exports_fill::fill::beahcerot_fill_room(
        corners, ends, spacing, len, inset, pull, cosine, sine, stagger, floats, wholes,
    )
}

#[unsafe(no_mangle)]
pub extern "C" fn beahcerot_fill_job(
    bytes: &[u8],
    corners: &mut [f64],
    ends: &mut [usize],
    floats: &mut [f64],
    wholes: &mut [usize],
    points: &mut [f64],
    stops: &mut [usize],
    sections: &mut u64,
    count: &mut u64,
) -> u64
    ensures wholes_after { left (filled result sections.new count.new) points.new stops.new floats.new wholes.new ≡ job_left bytes.now (length corners.old) (length ends.old) points.old stops.old floats.old wholes.old }
    ensures corners_after { corners.new ≡ Job·left (parsed bytes.now (length corners.old) (length ends.old)) (Job·corners bytes.now) corners.old }
    ensures ends_after { ends.new ≡ Job·left (parsed bytes.now (length corners.old) (length ends.old)) (Job·ends bytes.now) ends.old }
{
    exports_fill::fill::beahcerot_fill_job(
        bytes, corners, ends, floats, wholes, points, stops, sections, count,
    )
}
