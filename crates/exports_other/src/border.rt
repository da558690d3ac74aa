// Satin columns: a call answers document 01's number and stores how many points it wrote, none after a refusal. A pair is two points; a split
// of 0 is none; a style is 0 for plain, 1 for the s form and any other number for zigzag.
ghost use Rattle.std.specs.Prelude.{◌≡◌, length};
ghost use Rattle.satinrules.specs.Calls.{split_sewn, split_output, s_stitch_sewn, s_stitch_output, pairs_sewn, pairs_output, pairs_work, column_sewn, column_output, column_work};
ghost use Rattle.satinroom.specs.Room.{said_room, pairs_room_of, column_room_of};
ghost use Rattle.halves.specs.Answers.{underlay_said, underlay_output, underlay_work, top_sewn, top_output, top_work};
ghost use Rattle.exports_other.specs.Borders.{style_of, satin_of};

use exports::line::store_count;
use refusal::Refusal;
use satinroom::{column_room, pairs_room};
use satinrules::{Satin, Style, split_of};

#[unsafe(no_mangle)]
pub extern "C" fn beahcerot_split_long(
    line: &[f64],
    max: f64,
    out: &mut [f64],
    count: &mut u64,
) -> u64
    ensures { (result ≡ (split_sewn line.now max (length out.old)).answer) × (count.new ≡ (split_sewn line.now max (length out.old)).points) × (out.new ≡ split_output line.now max out.old) }
{
    store_count(satin::split_long(line, max, out), count)
}

#[unsafe(no_mangle)]
pub extern "C" fn beahcerot_s_stitch(line: &[f64], out: &mut [f64], count: &mut u64) -> u64
    ensures { (result ≡ (s_stitch_sewn line.now (length out.old)).answer) × (count.new ≡ (s_stitch_sewn line.now (length out.old)).points) × (out.new ≡ s_stitch_output line.now out.old) }
{
    store_count(satin::s_stitch(line, out), count)
}

#[unsafe(no_mangle)]
pub extern "C" fn beahcerot_pairs(
    a: &[f64],
    b: &[f64],
    sync: &[f64],
    step: f64,
    work: &mut [f64],
    out: &mut [f64],
    count: &mut u64,
) -> u64
    ensures { (result ≡ (pairs_sewn a.now b.now sync.now step (length work.old) (length out.old)).answer) × (count.new ≡ (pairs_sewn a.now b.now sync.now step (length work.old) (length out.old)).points) × (out.new ≡ pairs_output a.now b.now sync.now step (length work.old) out.old) × (work.new ≡ pairs_work a.now b.now sync.now step work.old (length out.old)) }
{
    store_count(satin::pairs(a, b, sync, step, work, out), count)
}

// The same of a room's floats.
fn store_room(r: Result<u64, Refusal>, floats: &mut u64) -> u64
    ensures { (result ≡ (said_room r).answer) × (floats.new ≡ (said_room r).floats) }
{
    store_count(r, floats)
}

// Working room that is always enough for `beahcerot_pairs`: how many floats, none after a refusal.
#[unsafe(no_mangle)]
pub extern "C" fn beahcerot_pairs_room(
    a: &[f64],
    b: &[f64],
    sync: &[f64],
    step: f64,
    floats: &mut u64,
) -> u64
    ensures { (result ≡ (pairs_room_of a.now b.now sync.now step).answer) × (floats.new ≡ (pairs_room_of a.now b.now sync.now step).floats) }
{
    store_room(pairs_room(a, b, sync, step), floats)
}

fn style_of(n: u64) -> Style
    ensures { result ≡ style_of n }
{
    if n == 0 {
        return Style::Plain;
    }
    if n == 1 {
        return Style::SStitch;
    }
    Style::Zigzag
}

// The settings that the numbers say.
fn satin_of(
    spacing: f64,
    pull: f64,
    underlay: u64,
    run_len: f64,
    short_stitches: bool,
    split: f64,
    style: u64,
) -> Satin
    ensures { result ≡ satin_of spacing pull underlay run_len short_stitches split style }
{
    Satin {
        spacing,
        pull,
        underlay,
        run_len,
        short_stitches,
        split: split_of(split),
        style: style_of(style),
    }
}

#[unsafe(no_mangle)]
pub extern "C" fn beahcerot_column(
    a: &[f64],
    b: &[f64],
    sync: &[f64],
    spacing: f64,
    pull: f64,
    underlay: u64,
    run_len: f64,
    short_stitches: bool,
    split: f64,
    style: u64,
    work: &mut [f64],
    out: &mut [f64],
    count: &mut u64,
) -> u64
    ensures { (result ≡ (column_sewn a.now b.now sync.now (satin_of spacing pull underlay run_len short_stitches split style) (length work.old) (length out.old)).answer) × (count.new ≡ (column_sewn a.now b.now sync.now (satin_of spacing pull underlay run_len short_stitches split style) (length work.old) (length out.old)).points) × (out.new ≡ column_output a.now b.now sync.now (satin_of spacing pull underlay run_len short_stitches split style) (length work.old) out.old) × (work.new ≡ column_work a.now b.now sync.now (satin_of spacing pull underlay run_len short_stitches split style) work.old (length out.old)) }
{
    let g = satin_of(
        spacing,
        pull,
        underlay,
        run_len,
        short_stitches,
        split,
        style,
    );
    store_count(column::column(a, b, sync, g, work, out), count)
}

// The underlay alone. `far` says whether the thread ends at the far end, not so after a refusal; `beahcerot_top` is told it.
#[unsafe(no_mangle)]
pub extern "C" fn beahcerot_underlay(
    a: &[f64],
    b: &[f64],
    sync: &[f64],
    spacing: f64,
    pull: f64,
    underlay: u64,
    run_len: f64,
    short_stitches: bool,
    split: f64,
    style: u64,
    work: &mut [f64],
    out: &mut [f64],
    count: &mut u64,
    far: &mut bool,
) -> u64
    ensures { (result ≡ (underlay_said a.now b.now sync.now (satin_of spacing pull underlay run_len short_stitches split style) (length work.old) (length out.old)).answer) × (count.new ≡ (underlay_said a.now b.now sync.now (satin_of spacing pull underlay run_len short_stitches split style) (length work.old) (length out.old)).points) × (far.new ≡ (underlay_said a.now b.now sync.now (satin_of spacing pull underlay run_len short_stitches split style) (length work.old) (length out.old)).far) × (out.new ≡ underlay_output a.now b.now sync.now (satin_of spacing pull underlay run_len short_stitches split style) (length work.old) out.old) × (work.new ≡ underlay_work a.now b.now sync.now (satin_of spacing pull underlay run_len short_stitches split style) work.old (length out.old)) }
{
    let g = satin_of(
        spacing,
        pull,
        underlay,
        run_len,
        short_stitches,
        split,
        style,
    );
    match halves::underlay(a, b, sync, g, work, out) {
        Ok(u) => {
            *count = u.points;
            *far = u.far;
            0
        }
        Err(e) => {
            *count = 0;
            *far = false;
            u64::from(e)
        }
    }
}

// The top alone, turned round where the thread is at the far end. The room for a column is enough for either half.
#[unsafe(no_mangle)]
pub extern "C" fn beahcerot_top(
    a: &[f64],
    b: &[f64],
    sync: &[f64],
    spacing: f64,
    pull: f64,
    underlay: u64,
    run_len: f64,
    short_stitches: bool,
    split: f64,
    style: u64,
    far: bool,
    work: &mut [f64],
    out: &mut [f64],
    count: &mut u64,
) -> u64
    ensures { (result ≡ (top_sewn a.now b.now sync.now (satin_of spacing pull underlay run_len short_stitches split style) far (length work.old) (length out.old)).answer) × (count.new ≡ (top_sewn a.now b.now sync.now (satin_of spacing pull underlay run_len short_stitches split style) far (length work.old) (length out.old)).points) × (out.new ≡ top_output a.now b.now sync.now (satin_of spacing pull underlay run_len short_stitches split style) far (length work.old) out.old) × (work.new ≡ top_work a.now b.now sync.now (satin_of spacing pull underlay run_len short_stitches split style) far work.old (length out.old)) }
{
    let g = satin_of(
        spacing,
        pull,
        underlay,
        run_len,
        short_stitches,
        split,
        style,
    );
    store_count(halves::top(a, b, sync, g, far, work, out), count)
}

// Working room that is always enough for `beahcerot_column`: how many floats, none after a refusal.
#[unsafe(no_mangle)]
pub extern "C" fn beahcerot_column_room(
    a: &[f64],
    b: &[f64],
    sync: &[f64],
    spacing: f64,
    pull: f64,
    underlay: u64,
    run_len: f64,
    short_stitches: bool,
    split: f64,
    style: u64,
    floats: &mut u64,
) -> u64
    ensures { (result ≡ (column_room_of a.now b.now sync.now (satin_of spacing pull underlay run_len short_stitches split style)).answer) × (floats.new ≡ (column_room_of a.now b.now sync.now (satin_of spacing pull underlay run_len short_stitches split style)).floats) }
{
    let g = satin_of(
        spacing,
        pull,
        underlay,
        run_len,
        short_stitches,
        split,
        style,
    );
    store_room(column_room(a, b, sync, g), floats)
}
