// All places in the order in which the sweep takes them up: halves put in order and merged, n·log n in the edges.
ghost use Rattle.std.specs.Prelude.{◌≡◌, ◌+◌, ◌≤◌, cond, length};
ghost use Rattle.seqs.specs.Lists.{upto, Strict};
ghost use Rattle.sweep.specs.declared.key.Key.TheVariants.{Top, Bottom};
ghost use Rattle.sweep.specs.Swept.{by, ordered, waiting};
ghost use Rattle.sweep.specs.Merge.{merge_by, left_next};

use crate::key::{Key, ahead, key_of, sort};
use edges::Table;

// So many places are put in order by insertion.
const FEW: usize = 16;

// Whether the next of two parts that are in order is the first part's.
fn left_next(a: &[usize], b: &[usize], table: &Table, key: Key) -> bool
    ensures { result ≡ left_next (by key table.now) a.now b.now }
{
    let Some(&p) = a.first() else {
        return false;
    };
    let Some(&q) = b.first() else {
        return true;
    };
    ahead(key_of(table, key, p), p, key_of(table, key, q), q)
}

// Two parts, each in order, as one part in order.
fn merge(mut a: &[usize], mut b: &[usize], to: &mut [usize], table: &Table, key: Key)
    requires { length to.old ≡ length a.now + length b.now }
    ensures { to.new ≡ merge_by (by key table.now) a.now b.now }
{
    for x in to.iter_mut() {
        if left_next(a, b, table, key) {
            *x = a[0];
            a = &a[1..];
        } else {
            *x = b[0];
            b = &b[1..];
        }
    }
}

// Places that were merged, back where they stood, one by one: `copy_from_slice` would have the archive ask for memmove.
fn copy_back(l: &mut [usize], from: &[usize])
    requires { length l.old ≡ length from.now }
    ensures { l.new ≡ from.now }
{
    for (i, x) in l.iter_mut().enumerate() {
        *x = from[i];
    }
}

// The places are put in order, with as much room for the merging.
fn merge_sort(l: &mut [usize], room: &mut [usize], table: &Table, key: Key)
    requires { (length l.old ≤ length room.old) × Strict (by key table.now) }
    ensures { l.new ≡ ordered key table.now l.old }
{
    let n = l.len();
    if n <= FEW {
        sort(l, table, key);
        return;
    }
    let (a, b) = l.split_at_mut(n / 2);
    merge_sort(a, room, table, key);
    merge_sort(b, room, table, key);
    merge(a, b, &mut room[..n], table, key);
    copy_back(l, &room[..n]);
}

// Each place its own number.
pub fn count_up(l: &mut [usize])
    ensures { l.new ≡ upto 0 (length l.old) }
{
    for (i, x) in l.iter_mut().enumerate() {
        *x = i;
    }
}

// All places, in the order in which the sweep takes them up, with as much room for the merging.
pub fn wait(l: &mut [usize], room: &mut [usize], table: &Table, upward: bool)
    requires { (length l.old ≡ length table.now) × (length l.old ≤ length room.old) × Strict (by (cond upward Bottom Top) table.now) }
    ensures { l.new ≡ waiting upward table.now }
{
    count_up(l);
    let key = if upward { Key::Bottom } else { Key::Top };
    merge_sort(l, room, table, key);
}
