// One pass: the line's stitches, and those of the piece back to its first corner where it is closed.
ghost use Rattle.std.specs.Prelude.{◌≡◌, ◌+◌, ◌*◌, ◌^◌, ◌<◌, ◌≤◌, length};
ghost use Rattle.seqs.specs.Slices.{put, capped};
ghost use Rattle.geom.specs.Outline.{points};
ghost use Rattle.geom.specs.Sewing.{flat};
ghost use Rattle.stroke.specs.Running.{one_pass};
ghost use Rattle.stroke.specs.Closing.{closing};

use geom::sewing::{add_within, corner};
use polyline::{count_line, piece_steps, put_line, put_piece};

// How many stitches the closing piece takes.
fn closing_steps(line: &[f64], closed: bool, len: f64) -> u64
    ensures { result ≡ length (closing line.now closed len) }
{
    let n = line.len() / 2;
    if closed {
        if n > 2 {
            return piece_steps(corner(line, 2 * (n - 1)), corner(line, 0), len);
        }
    }
    0
}

// The closing piece, from k on.
fn put_closing(out: &mut [f64], k: usize, line: &[f64], closed: bool, len: f64)
    requires { k + length (flat (closing line.now closed len)) ≤ length out.old }
    ensures { out.new ≡ put out.old k (flat (closing line.now closed len)) }
{
    let n = line.len() / 2;
    if closed {
        if n > 2 {
            let a = corner(line, 2 * (n - 1));
            let b = corner(line, 0);
            put_piece(out, k, a, b, piece_steps(a, b, len));
            return;
        }
    }
}

// How many points one pass has, or room + 1 where they pass the room.
pub fn count_one(line: &[f64], closed: bool, len: f64, room: u64) -> u64
    requires { room < 2 ^ 63 }
    ensures { result ≡ capped room (length (one_pass (points line.now) closed len)) }
{
    add_within(
        count_line(line, len, room),
        closing_steps(line, closed, len),
        room,
    )
}

// One pass, to the front of out.
pub fn put_one(out: &mut [f64], line: &[f64], closed: bool, len: f64)
    requires { length (flat (one_pass (points line.now) closed len)) ≤ length out.old }
    ensures { out.new ≡ put out.old 0 (flat (one_pass (points line.now) closed len)) }
{
    let k = put_line(out, 0, line, len);
    put_closing(out, k, line, closed, len);
}
