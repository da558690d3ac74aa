// Places of edges in order: by a key in total order, and where keys are equal by place. Insertion from the back, for few places and for those that are nearly in order.
ghost use Rattle.std.specs.Prelude.{◌≡◌, ◌++◌, ◌+◌, ◌<◌, length, take, drop, get_or};
ghost use Rattle.seqs.specs.Lists.{insert_back};
ghost use Rattle.sweep.specs.Swept.{key_of, ahead, by, ordered};

use edges::Table;

// A row's crossings, y0, or y1 with the last first.
// kept (7): no plainer: the theorems order places by such a key (Exact), and a closure would only hide it
#[derive(Clone, Copy)]
pub enum Key {
    X(f64),
    Top,
    Bottom,
}

// kept (5): no plainer: table and key are two words, and the contracts order `by` each of them
pub fn key_of(table: &Table, key: Key, i: usize) -> f64
    ensures { result ≡ key_of key table.now i }
{
    let t = table.edge(i);
    match key {
        Key::X(y) => t.x0 + (y - t.y0) * t.dxdy,
        Key::Top => t.y0,
        Key::Bottom => -t.y1,
    }
}

// Whether place i, of key x, comes before place j, of key z, or is it.
// kept (4): no plainer: f64::total_cmp asks for numbers, and a key may be a NaN
pub fn ahead(x: f64, i: usize, z: f64, j: usize) -> bool
    ensures { result ≡ ahead x i z j }
{
    if leaves::before(x, z) {
        return true;
    }
    if leaves::before(z, x) {
        return false;
    }
    i <= j
}

// The place at n is put in order among the first n.
fn insert(l: &mut [usize], n: usize, table: &Table, key: Key)
    requires { n < length l.old }
    ensures { l.new ≡ insert_back (by key table.now) (get_or l.old n 0) (take n l.old) ++ drop (n + 1) l.old }
{
    let p = l[n];
    let x = key_of(table, key, p);
    for j in (0..n).rev() {
        let q = l[j];
        if !ahead(x, p, key_of(table, key, q), q) {
            l[j + 1] = p;
            return;
        }
        l[j + 1] = q;
    }
    l[0] = p;
}

pub fn sort(l: &mut [usize], table: &Table, key: Key)
    ensures { l.new ≡ ordered key table.now l.old }
{
    for n in 0..l.len() {
        insert(l, n, table, key);
    }
}
