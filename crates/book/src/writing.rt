// Bytes written into a book.
ghost use Rattle.std.specs.Prelude.{◌≡◌, ◌++◌, ◌+◌, ◌-◌, ◌≤◌, length, take, drop, replicate};
ghost use Rattle.seqs.specs.Slices.{Put};
ghost use Rattle.book.specs.Book.{bytes, head_bytes, value_bytes, sheet_bytes};

use crate::values::Values;
use leaves::to_bits;

// kept (6): no plainer: `Put` tells what is put of the whole list, and here every put is at a place of it
// kept (2): no plainer: jobs' put_digits has glyphs for its digits, so one function of both would take the digit as a closure with its law
// The last k bytes of a number from a place on, found from the back.
fn put_number(v: u64, k: usize, out: &mut [u8], at: usize)
    requires { at + k ≤ length out.old }
    ensures { Put out.old out.new at (bytes k v) }
{
    let mut rest = v;
    for i in (0..k).rev() {
        out[at + i] = (rest % 256) as u8;
        rest /= 256;
    }
}

// The length of what follows, the version, and the number.
fn put_head(number: u16, out: &mut [u8], at: usize)
    requires { at + 5 ≤ length out.old }
    ensures { Put out.old out.new at (head_bytes number) }
{
    put_number(39, 2, out, at);
    put_number(1, 1, out, at + 2);
    put_number(u64::from(number), 2, out, at + 3);
}

fn put_values(v: Values, out: &mut [u8], at: usize)
    requires { at + 36 ≤ length out.old }
    ensures { Put out.old out.new at (value_bytes v) }
{
    put_number(to_bits(v.spacing), 8, out, at);
    put_number(to_bits(v.len), 8, out, at + 8);
    put_number(to_bits(v.inset), 8, out, at + 16);
    put_number(to_bits(v.pull), 8, out, at + 24);
    put_number(v.stagger, 4, out, at + 32);
}

// A version 1 sheet at a place.
pub fn put_sheet(number: u16, v: Values, out: &mut [u8], at: usize)
    requires { at + 41 ≤ length out.old }
    ensures { Put out.old out.new at (sheet_bytes number v) }
{
    put_head(number, out, at);
    put_values(v, out, at + 5);
}

// Zeros from a place to the end of the list.
pub fn zero_from(s: &mut [u8], at: usize)
    requires { at ≤ length s.old }
    ensures { s.new ≡ take at s.old ++ replicate (length s.old - at) 0 }
{
    s[at..].fill(0);
}

// The bytes from one place to another, moved forward.
pub fn move_down(s: &mut [u8], to: usize, from: usize, end: usize)
    requires { (to ≤ from) × (from ≤ end) × (end ≤ length s.old) }
    ensures { (take (to + (end - from)) s.new ≡ take to s.old ++ drop from (take end s.old)) × (length s.new ≡ length s.old) }
{
    s.copy_within(from..end, to);
}
