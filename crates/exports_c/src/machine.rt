// Machine files. Each calls the function of its name in `exports_other::machine`, which says what it does, and states its clauses.
ghost use Rattle.std.specs.Prelude.{◌≡◌, length};
ghost use Rattle.dst.specs.Answers.{dst_written, dst_output};
ghost use Rattle.dst_read.specs.Answers.{dst_read, points_left, marks_left};

#[unsafe(no_mangle)]
pub extern "C" fn beahcerot_dst(points: &[f64], out: &mut [u8], count: &mut u64) -> u64
    ensures { (result ≡ (dst_written points.now (length out.old)).answer) × (count.new ≡ (dst_written points.now (length out.old)).bytes) × (out.new ≡ dst_output points.now out.old) }
{
    exports_other::machine::beahcerot_dst(points, out, count)
}

#[unsafe(no_mangle)]
pub extern "C" fn beahcerot_dst_read(
    bytes: &[u8],
    points: &mut [f64],
    marks: &mut [u64],
    count: &mut u64,
    number: &mut u64,
) -> u64
    ensures { (result ≡ (dst_read bytes.now (length points.old) (length marks.old)).answer) × (count.new ≡ (dst_read bytes.now (length points.old) (length marks.old)).points) × (number.new ≡ (dst_read bytes.now (length points.old) (length marks.old)).number) × (points.new ≡ points_left bytes.now (length marks.old) points.old) × (marks.new ≡ marks_left bytes.now (length points.old) marks.old) }
{
    exports_other::machine::beahcerot_dst_read(bytes, points, marks, count, number)
}
