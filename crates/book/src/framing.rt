// A book's framing, checked before anything is answered.
ghost use Rattle.std.specs.Prelude.{◌≡◌, ◌+◌, ◌≤◌, length, take, drop};
ghost use Rattle.book.specs.Book.{sheets, stands as Book·stands, good_sheet, ended, good_book};

use crate::walk::{place, size_at};
use jobs::number::number_at;

// kept (6): no plainer: places are told of the whole book, as in walk
// The version, and the length of a version 1 sheet.
fn good_sheet(s: &[u8], at: usize, n: usize) -> bool
    requires { (5 ≤ n) × (at + n ≤ length s.now) }
    ensures { result ≡ good_sheet (take n (drop at s.now)) }
{
    let version = s[at + 2];
    if version == 1 {
        return n == 41;
    }
    version >= 2
}

fn stands(s: &[u8], number: u16) -> bool
    ensures { result ≡ Book·stands number (sheets s.now) }
{
    let at = place(s, number);
    size_at(s, at).is_some()
}

// The book ends at a place.
fn ends_at(s: &[u8], at: usize) -> bool
    requires { at ≤ length s.now }
    ensures { result ≡ ended (drop at s.now) }
{
    if s.len() - at < 2 {
        return true;
    }
    number_at(s, at, 2) == 0
}

// Each number is sought in the rest: of m sheets m · m / 2 are looked at.
pub fn good_book(s: &[u8]) -> bool
    ensures { result ≡ good_book s.now }
{
    let mut at = 0;
    // kept (3): no plainer: a sheet's length says where the next one begins, and what is behind it is looked through
    while let Some(n) = size_at(s, at) {
        if !good_sheet(s, at, n) {
            return false;
        }
        let number = number_at(s, at + 3, 2) as u16;
        at += n;
        if stands(&s[at..], number) {
            return false;
        }
    }
    ends_at(s, at)
}
