// All that is printed, put to the front of a lent slice.
ghost use Rattle.std.specs.Prelude.{◌≡◌, ◌++◌, ◌+◌, ◌-◌, ◌*◌, ◌/◌, ◌≤◌, length, take, drop};
ghost use Rattle.seqs.specs.Slices.{Put};
ghost use Rattle.jobs.specs.Text.{point_lines, section_lines, listing as Text·listing, Ends};

use crate::line::{put_head, put_point};

// kept (6): no plainer: each line goes on at the place where the one before it ends, as in line
// The lines of a section's points, from one place to another.
fn put_points(
    section: u64,
    points: &[f64],
    from: usize,
    to: usize,
    out: &mut [u8],
    at: usize,
) -> usize
    requires { (from ≤ to) × (2 * to ≤ length points.now) × (at + 55 * (to - from) ≤ length out.old) }
    ensures put { Put out.old out.new at (point_lines points.now section from (to - from)) }
    ensures value { (result ≡ at + length (point_lines points.now section from (to - from))) × (result ≤ at + 55 * (to - from)) }
{
    let mut k = at;
    for i in from..to {
        k = put_point(section, points[2 * i], points[2 * i + 1], out, k);
    }
    k
}

// Every section's lines, each from where the one before it ends.
fn put_sections(
    sections: usize,
    points: &[f64],
    stops: &[usize],
    out: &mut [u8],
    at: usize,
) -> usize
    requires { (sections ≤ length stops.now) × Ends points.now 0 (take sections stops.now) × (at + 55 * (length points.now / 2) ≤ length out.old) }
    ensures put { Put out.old out.new at (section_lines points.now 0 0 (take sections stops.now)) }
    ensures value { (result ≡ at + length (section_lines points.now 0 0 (take sections stops.now))) × (result ≤ at + 55 * (length points.now / 2)) }
{
    let mut k = at;
    let mut from = 0;
    for s in 0..sections {
        let to = stops[s];
        k = put_points(s as u64, points, from, to, out, k);
        from = to;
    }
    k
}

// The head line, and a line for each point; answers how many bytes. A line of a point has at most 55.
pub fn listing(
    answer: u64,
    sections: usize,
    many: u64,
    points: &[f64],
    stops: &[usize],
    out: &mut [u8],
) -> usize
    requires { (sections ≤ length stops.now) × Ends points.now 0 (take sections stops.now) × (63 + 55 * (length points.now / 2) ≤ length out.old) }
    ensures out_after { out.new ≡ Text·listing answer sections many points.now stops.now ++ drop result out.old }
    ensures value { (result ≡ length (Text·listing answer sections many points.now stops.now)) × (result ≤ 63 + 55 * (length points.now / 2)) }
{
    let k = put_head(answer, sections as u64, many, out);
    put_sections(sections, points, stops, out, k)
}
