// Lines and running stitch. Each calls the function of its name in `exports::line`, which says what it does, and states its clauses.
ghost use Rattle.std.specs.Prelude.{◌≡◌, length};
ghost use Rattle.geometry.specs.LineAnswers.{polyline_length_answer, resample_sewn, resample_output};
ghost use Rattle.stroke.specs.RunningAnswers.{running_sewn, running_output};
ghost use Rattle.exports.specs.Stored.{stored};

#[unsafe(no_mangle)]
pub extern "C" fn beahcerot_polyline_length(line: &[f64], value: &mut f64) -> u64
    ensures { (result ≡ (polyline_length_answer line.now).number) × (value.new ≡ stored (polyline_length_answer line.now) value.old) }
{
    exports::line::beahcerot_polyline_length(line, value)
}

#[unsafe(no_mangle)]
pub extern "C" fn beahcerot_resample_keep_corners(
    line: &[f64],
    len: f64,
    out: &mut [f64],
    count: &mut u64,
) -> u64
    ensures { (result ≡ (resample_sewn line.now len (length out.old)).answer) × (count.new ≡ (resample_sewn line.now len (length out.old)).points) × (out.new ≡ resample_output line.now len out.old) }
{
    exports::line::beahcerot_resample_keep_corners(line, len, out, count)
}

#[unsafe(no_mangle)]
pub extern "C" fn beahcerot_running(
    line: &[f64],
    closed: bool,
    len: f64,
    passes: u64,
    out: &mut [f64],
    count: &mut u64,
) -> u64
    ensures { (result ≡ (running_sewn line.now closed len passes (length out.old)).answer) × (count.new ≡ (running_sewn line.now closed len passes (length out.old)).points) × (out.new ≡ running_output line.now closed len passes out.old) }
{
    exports::line::beahcerot_running(line, closed, len, passes, out, count)
}
