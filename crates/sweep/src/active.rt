// The stripe of places: the first m cross the row, in order; those from next on wait.
ghost use Rattle.std.specs.Prelude.{◌≡◌, ◌≤◌, length};
ghost use Rattle.sweep.specs.Swept.{enters, stays, Retained, Admitted, Gathered};

use crate::key::{Key, sort};
use edges::Table;

// kept (6): rule: document 01 lends the slices, so a list of places is a slice and its length
#[derive(Clone, Copy, Default)]
pub struct Live {
    pub m: usize,
    pub next: usize,
}

// kept (5): no plainer: of table, way and y each call takes what the contracts name one by one; a struct of them is only taken apart
fn enters(table: &Table, upward: bool, y: f64, i: usize) -> bool
    ensures { result ≡ enters upward table.now y i }
{
    let t = table.edge(i);
    if upward { y < t.y1 } else { t.y0 <= y }
}

fn stays(table: &Table, upward: bool, y: f64, i: usize) -> bool
    ensures { result ≡ stays upward table.now y i }
{
    let t = table.edge(i);
    if upward { t.y0 <= y } else { y < t.y1 }
}

// Of the first m places those that stay; how many.
fn retain(l: &mut [usize], m: usize, table: &Table, upward: bool, y: f64) -> usize
    requires { m ≤ length l.old }
    ensures { Retained (stays upward table.now y) m l.old l.new result }
{
    let mut j = 0;
    for i in 0..m {
        let p = l[i];
        if stays(table, upward, y, p) {
            l[j] = p;
            j += 1;
        }
    }
    j
}

// Those that wait and are taken up go behind the first m, if they stay.
fn admit(l: &mut [usize], m: usize, next: usize, table: &Table, upward: bool, y: f64) -> Live
    requires { (m ≤ next) × (next ≤ length l.old) }
    ensures { Admitted (stays upward table.now y) (enters upward table.now y) m next l.old l.new result }
{
    let mut j = m;
    for i in next..l.len() {
        let p = l[i];
        if !enters(table, upward, y, p) {
            return Live { m: j, next: i };
        }
        if stays(table, upward, y, p) {
            l[j] = p;
            j += 1;
        }
    }
    Live {
        m: j,
        next: l.len(),
    }
}

// The places of the row at y, in order.
pub fn gather(l: &mut [usize], live: Live, table: &Table, upward: bool, y: f64) -> Live
    requires { (live.m ≤ live.next) × (live.next ≤ length l.old) }
    ensures { Gathered upward table.now y live l.old l.new result }
{
    let kept = retain(l, live.m, table, upward, y);
    let r = admit(l, kept, live.next, table, upward, y);
    sort(&mut l[..r.m], table, Key::X(y));
    r
}
