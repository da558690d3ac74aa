// DST records to points: request [5].
#![tactic(auto, unfolding(crate::specs::Answers::dst_read, crate::specs::Answers::read_refusal, crate::specs::Answers::points_left, crate::specs::Answers::marks_left, crate::specs::Answers::points_read))]

ghost use Rattle.std.specs.Prelude.{◌≡◌, length};
ghost use Rattle.dst_read.specs.Unread.{said_read};
ghost use Rattle.dst_read.specs.Answers.{dst_read, points_left, marks_left};

pub mod mark;
pub mod names;
pub mod records;
pub mod scan;
pub mod unread;
pub mod write;

use refusal::Refusal;
pub use unread::Unread;

// How many points stand at the front of the slices. The first refusal in file order answers, ROOM last; a refusal writes nothing.
pub fn dst_read(bytes: &[u8], points: &mut [f64], marks: &mut [u64]) -> Result<u64, Unread>
    ensures { (said_read result ≡ dst_read bytes.now (length points.old) (length marks.old)) × (points.new ≡ points_left bytes.now (length marks.old) points.old) × (marks.new ≡ marks_left bytes.now (length points.old) marks.old) }
{
    let n = scan::scan(bytes).map_err(Unread::told)?;
    if 2 * n > points.len() || n > marks.len() {
        return Err(Unread::of(Refusal::Room));
    }
    write::write(bytes, n, points, marks);
    Ok(n as u64)
}
