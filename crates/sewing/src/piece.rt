// A piece read from the working slices, as the row that is sewn.
ghost use Rattle.std.specs.Prelude.{◌≡◌, ◌+◌, ◌*◌, ◌<◌, ◌≤◌, length};
ghost use Rattle.sewing.specs.Sewing.{entry_at, start_of, row_of, phase_of, Linked};

use crate::row::{Line, row_of};
use crate::thread::Thread;
use geom::P;
use leaves::of_u64;

// Pieces that are linked: `sections` sections of them, and what all their rows share.
#[derive(Clone, Copy)]
pub struct Pieces<'a> {
    pub floats: &'a [f64],
    pub wholes: &'a [usize],
    pub thread: &'a Thread,
    pub sections: usize,
    pub ghost linked: { Linked thread.now.field sections floats.now wholes.now },
}

// The place of row r in the stagger's cycle.
fn phase(t: &Thread, r: usize) -> u64
    ensures { result ≡ phase_of t.now.start r t.now.cycle t.now.field.down }
{
    let n = t.cycle;
    let m = r as u64 % n;
    if t.field.down {
        (t.start + (n - m)) % n
    } else {
        (t.start + m) % n
    }
}

impl<'a> Pieces<'a> {
    // Where piece j's row starts.
    pub fn start(self, j: usize) -> P
        requires { j < self.thread.now.field.pieces }
        ensures { result ≡ start_of (entry_at self.entry.thread.now.field self.entry.floats.now self.entry.wholes.now j) }
    {
        let n = self.thread.field.pieces;
        let forward = self.wholes[n + 2 * j + 1] % 2 == 0;
        P {
            x: self.floats[if forward { 3 * j + 1 } else { 3 * j + 2 }],
            y: self.floats[3 * j],
        }
    }

    // Piece j's row.
    pub fn row(self, j: usize) -> Line
        requires { j < self.thread.now.field.pieces }
        ensures { result.row ≡ row_of self.entry.thread.now.field.g self.entry.thread.now.field.stagger (entry_at self.entry.thread.now.field self.entry.floats.now self.entry.wholes.now j) }
    {
        let t = self.thread;
        let len = t.field.g.len;
        let p = phase(t, self.wholes[j]);
        let off = of_u64(p) * len / of_u64(t.cycle);
        let forward = self.wholes[t.field.pieces + 2 * j + 1] % 2 == 0;
        row_of(
            len,
            t.margin,
            off,
            self.floats[3 * j],
            self.floats[3 * j + 1],
            self.floats[3 * j + 2],
            forward,
        )
    }
}
