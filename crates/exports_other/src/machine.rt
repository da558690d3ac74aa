// Machine files: a call answers a refusal's number and stores how many bytes or points it wrote, none after a refusal.
ghost use Rattle.std.specs.Prelude.{◌≡◌, length};
ghost use Rattle.dst.specs.Answers.{dst_written, dst_output};
ghost use Rattle.dst_read.specs.Answers.{dst_read, points_left, marks_left};

use exports::line::store_count;

#[unsafe(no_mangle)]
pub extern "C" fn beahcerot_dst(points: &[f64], out: &mut [u8], count: &mut u64) -> u64
    ensures { (result ≡ (dst_written points.now (length out.old)).answer) × (count.new ≡ (dst_written points.now (length out.old)).bytes) × (out.new ≡ dst_output points.now out.old) }
{
    store_count(dst::dst(points, out), count)
}

// Of RECORD it stores the record's number too, of any other answer 0.
#[unsafe(no_mangle)]
pub extern "C" fn beahcerot_dst_read(
    bytes: &[u8],
    points: &mut [f64],
    marks: &mut [u64],
    count: &mut u64,
    number: &mut u64,
) -> u64
    ensures { (result ≡ (dst_read bytes.now (length points.old) (length marks.old)).answer) × (count.new ≡ (dst_read bytes.now (length points.old) (length marks.old)).points) × (number.new ≡ (dst_read bytes.now (length points.old) (length marks.old)).number) × (points.new ≡ points_left bytes.now (length marks.old) points.old) × (marks.new ≡ marks_left bytes.now (length points.old) marks.old) }
{
    match dst_read::dst_read(bytes, points, marks) {
        Ok(n) => {
            *count = n;
            *number = 0;
            0
        }
        Err(e) => {
            *count = 0;
            *number = e.number;
            u64::from(e.refusal)
        }
    }
}
