// Lines and running stitch: a writing call answers document 01's number and stores how many points it wrote, none after a refusal.
ghost use Rattle.std.specs.Prelude.{◌≡◌, length};
ghost use Rattle.refusal.specs.Sewn.{said_sewn};
ghost use Rattle.geometry.specs.LineAnswers.{polyline_length_answer, resample_sewn, resample_output};
ghost use Rattle.stroke.specs.RunningAnswers.{running_sewn, running_output};
ghost use Rattle.exports.specs.Stored.{stored};

use crate::number::store;
use geometry::checked_line;
use refusal::Refusal;

// The answer's number; a refusal counts none.
pub fn store_count(r: Result<u64, Refusal>, count: &mut u64) -> u64
    ensures { (result ≡ (said_sewn r).answer) × (count.new ≡ (said_sewn r).points) }
{
    match r {
        Ok(n) => {
            *count = n;
            0
        }
        Err(e) => {
            *count = 0;
            u64::from(e)
        }
    }
}

#[unsafe(no_mangle)]
pub extern "C" fn beahcerot_polyline_length(line: &[f64], value: &mut f64) -> u64
    ensures { (result ≡ (polyline_length_answer line.now).number) × (value.new ≡ stored (polyline_length_answer line.now) value.old) }
{
    store(checked_line::polyline_length(line), value)
}

#[unsafe(no_mangle)]
pub extern "C" fn beahcerot_resample_keep_corners(
    line: &[f64],
    len: f64,
    out: &mut [f64],
    count: &mut u64,
) -> u64
    ensures { (result ≡ (resample_sewn line.now len (length out.old)).answer) × (count.new ≡ (resample_sewn line.now len (length out.old)).points) × (out.new ≡ resample_output line.now len out.old) }
{
    store_count(checked_line::resample_keep_corners(line, len, out), count)
}

#[unsafe(no_mangle)]
pub extern "C" fn beahcerot_running(
    line: &[f64],
    closed: bool,
    len: f64,
    passes: u64,
    out: &mut [f64],
    count: &mut u64,
) -> u64
    ensures { (result ≡ (running_sewn line.now closed len passes (length out.old)).answer) × (count.new ≡ (running_sewn line.now closed len passes (length out.old)).points) × (out.new ≡ running_output line.now closed len passes out.old) }
{
    store_count(stroke::running(line, closed, len, passes, out), count)
}
