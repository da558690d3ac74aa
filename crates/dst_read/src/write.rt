// The points of the records, and their marks. Coordinates are counted from -121,000,000, as far as a million records can go, so that none is negative.
ghost use Rattle.std.specs.Prelude.{◌≡◌, ◌++◌, length, drop};
ghost use Rattle.numbers.specs.Num.{real};
ghost use Rattle.dst.specs.Thread.{origin};
ghost use Rattle.dst_read.specs.Reading.{points_from, coordinates, marks_of};
ghost use Rattle.dst_read.specs.Lifted.{lowered, Roomy};

use crate::records::Record;
use leaves::of_u64;

const LIFT: u64 = 121000000;

// What a lifted coordinate stands for.
fn back(x: u64) -> f64
    ensures { result ≡ real (lowered x) }
{
    if x < LIFT {
        return -of_u64(LIFT - x);
    }
    of_u64(x - LIFT)
}

// kept (6): rule: request [5] lends the points and the marks as two slices
// The points of the first n records to the front of both slices.
pub fn write(bytes: &[u8], n: usize, points: &mut [f64], marks: &mut [u64])
    requires { Roomy n (length bytes.now) (length points.old) (length marks.old) }
    ensures { (points.new ≡ coordinates (points_from origin n bytes.now) ++ drop (length (coordinates (points_from origin n bytes.now))) points.old) × (marks.new ≡ marks_of (points_from origin n bytes.now) ++ drop (length (marks_of (points_from origin n bytes.now))) marks.old) }
{
    let mut x = LIFT;
    let mut y = LIFT;
    for r in 0..n {
        let record = Record::at(bytes, r);
        x = x + record.added_x() - record.taken_x();
        y = y + record.added_y() - record.taken_y();
        points[2 * r] = back(x);
        points[2 * r + 1] = back(y);
        marks[r] = u64::from(record.mark());
    }
}
