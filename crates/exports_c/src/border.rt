// Satin columns. Each calls the function of its name in `exports_other::border`, which says what it does, and states its clauses.
ghost use Rattle.std.specs.Prelude.{◌≡◌, length};
ghost use Rattle.satinrules.specs.Calls.{split_sewn, split_output, s_stitch_sewn, s_stitch_output, pairs_sewn, pairs_output, pairs_work, column_sewn, column_output, column_work};
ghost use Rattle.satinroom.specs.Room.{pairs_room_of, column_room_of};
ghost use Rattle.halves.specs.Answers.{underlay_said, underlay_output, underlay_work, top_sewn, top_output, top_work};
ghost use Rattle.exports_other.specs.Borders.{satin_of};

#[unsafe(no_mangle)]
pub extern "C" fn beahcerot_split_long(
    line: &[f64],
    max: f64,
    out: &mut [f64],
    count: &mut u64,
) -> u64
    ensures { (result ≡ (split_sewn line.now max (length out.old)).answer) × (count.new ≡ (split_sewn line.now max (length out.old)).points) × (out.new ≡ split_output line.now max out.old) }
{
    exports_other::border::beahcerot_split_long(line, max, out, count)
}

#[unsafe(no_mangle)]
pub extern "C" fn beahcerot_s_stitch(line: &[f64], out: &mut [f64], count: &mut u64) -> u64
    ensures { (result ≡ (s_stitch_sewn line.now (length out.old)).answer) × (count.new ≡ (s_stitch_sewn line.now (length out.old)).points) × (out.new ≡ s_stitch_output line.now out.old) }
{
    exports_other::border::beahcerot_s_stitch(line, out, count)
}

#[unsafe(no_mangle)]
pub extern "C" fn beahcerot_pairs(
    a: &[f64],
    b: &[f64],
    sync: &[f64],
    step: f64,
    work: &mut [f64],
    out: &mut [f64],
    count: &mut u64,
) -> u64
    ensures { (result ≡ (pairs_sewn a.now b.now sync.now step (length work.old) (length out.old)).answer) × (count.new ≡ (pairs_sewn a.now b.now sync.now step (length work.old) (length out.old)).points) × (out.new ≡ pairs_output a.now b.now sync.now step (length work.old) out.old) × (work.new ≡ pairs_work a.now b.now sync.now step work.old (length out.old)) }
{
    exports_other::border::beahcerot_pairs(a, b, sync, step, work, out, count)
}

#[unsafe(no_mangle)]
pub extern "C" fn beahcerot_pairs_room(
    a: &[f64],
    b: &[f64],
    sync: &[f64],
    step: f64,
    floats: &mut u64,
) -> u64
    ensures { (result ≡ (pairs_room_of a.now b.now sync.now step).answer) × (floats.new ≡ (pairs_room_of a.now b.now sync.now step).floats) }
{
    exports_other::border::beahcerot_pairs_room(a, b, sync, step, floats)
}

#[unsafe(no_mangle)]
pub extern "C" fn beahcerot_column(
    a: &[f64],
    b: &[f64],
    sync: &[f64],
    spacing: f64,
    pull: f64,
    underlay: u64,
    run_len: f64,
    short_stitches: bool,
    split: f64,
    style: u64,
    work: &mut [f64],
    out: &mut [f64],
    count: &mut u64,
) -> u64
    ensures { (result ≡ (column_sewn a.now b.now sync.now (satin_of spacing pull underlay run_len short_stitches split style) (length work.old) (length out.old)).answer) × (count.new ≡ (column_sewn a.now b.now sync.now (satin_of spacing pull underlay run_len short_stitches split style) (length work.old) (length out.old)).points) × (out.new ≡ column_output a.now b.now sync.now (satin_of spacing pull underlay run_len short_stitches split style) (length work.old) out.old) × (work.new ≡ column_work a.now b.now sync.now (satin_of spacing pull underlay run_len short_stitches split style) work.old (length out.old)) }
{
    exports_other::border::beahcerot_column(
        a,
        b,
        sync,
        spacing,
        pull,
        underlay,
        run_len,
        short_stitches,
        split,
        style,
        work,
        out,
        count,
    )
}

#[unsafe(no_mangle)]
pub extern "C" fn beahcerot_underlay(
    a: &[f64],
    b: &[f64],
    sync: &[f64],
    spacing: f64,
    pull: f64,
    underlay: u64,
    run_len: f64,
    short_stitches: bool,
    split: f64,
    style: u64,
    work: &mut [f64],
    out: &mut [f64],
    count: &mut u64,
    far: &mut bool,
) -> u64
    ensures { (result ≡ (underlay_said a.now b.now sync.now (satin_of spacing pull underlay run_len short_stitches split style) (length work.old) (length out.old)).answer) × (count.new ≡ (underlay_said a.now b.now sync.now (satin_of spacing pull underlay run_len short_stitches split style) (length work.old) (length out.old)).points) × (far.new ≡ (underlay_said a.now b.now sync.now (satin_of spacing pull underlay run_len short_stitches split style) (length work.old) (length out.old)).far) × (out.new ≡ underlay_output a.now b.now sync.now (satin_of spacing pull underlay run_len short_stitches split style) (length work.old) out.old) × (work.new ≡ underlay_work a.now b.now sync.now (satin_of spacing pull underlay run_len short_stitches split style) work.old (length out.old)) }
{
    exports_other::border::beahcerot_underlay(
        a,
        b,
        sync,
        spacing,
        pull,
        underlay,
        run_len,
        short_stitches,
        split,
        style,
        work,
        out,
        count,
        far,
    )
}

#[unsafe(no_mangle)]
pub extern "C" fn beahcerot_top(
    a: &[f64],
    b: &[f64],
    sync: &[f64],
    spacing: f64,
    pull: f64,
    underlay: u64,
    run_len: f64,
    short_stitches: bool,
    split: f64,
    style: u64,
    far: bool,
    work: &mut [f64],
    out: &mut [f64],
    count: &mut u64,
) -> u64
    ensures { (result ≡ (top_sewn a.now b.now sync.now (satin_of spacing pull underlay run_len short_stitches split style) far (length work.old) (length out.old)).answer) × (count.new ≡ (top_sewn a.now b.now sync.now (satin_of spacing pull underlay run_len short_stitches split style) far (length work.old) (length out.old)).points) × (out.new ≡ top_output a.now b.now sync.now (satin_of spacing pull underlay run_len short_stitches split style) far (length work.old) out.old) × (work.new ≡ top_work a.now b.now sync.now (satin_of spacing pull underlay run_len short_stitches split style) far work.old (length out.old)) }
{
    exports_other::border::beahcerot_top(
        a,
        b,
        sync,
        spacing,
        pull,
        underlay,
        run_len,
        short_stitches,
        split,
        style,
        far,
        work,
        out,
        count,
    )
}

#[unsafe(no_mangle)]
pub extern "C" fn beahcerot_column_room(
    a: &[f64],
    b: &[f64],
    sync: &[f64],
    spacing: f64,
    pull: f64,
    underlay: u64,
    run_len: f64,
    short_stitches: bool,
    split: f64,
    style: u64,
    floats: &mut u64,
) -> u64
    ensures { (result ≡ (column_room_of a.now b.now sync.now (satin_of spacing pull underlay run_len short_stitches split style)).answer) × (floats.new ≡ (column_room_of a.now b.now sync.now (satin_of spacing pull underlay run_len short_stitches split style)).floats) }
{
    exports_other::border::beahcerot_column_room(
        a,
        b,
        sync,
        spacing,
        pull,
        underlay,
        run_len,
        short_stitches,
        split,
        style,
        floats,
    )
}
