// The sheets of a book, one behind the other.
ghost use Rattle.std.specs.Prelude.{◌≡◌, ◌+◌, ◌<◌, ◌≤◌, length, drop, MatchOption};
ghost use Rattle.book.specs.Book.{size, sheets, joined};
ghost use Rattle.book.specs.BookLaws.{Placed};

use jobs::number::number_at;

// kept (6): no plainer: places are told of the whole book, as the ends and the moves of its sheets are
// The bytes of the whole sheet at a place, if one stands there.
pub fn size_at(s: &[u8], at: usize) -> Option<usize>
    requires { at ≤ length s.now }
    ensures { MatchOption result (size (drop at s.now) ≡ 0) (λ n. (n ≡ size (drop at s.now)) × (0 < n) × (at + n ≤ length s.now)) }
{
    if s.len() - at < 2 {
        return None;
    }
    let n = number_at(s, at, 2) as usize;
    if n < 3 {
        return None;
    }
    if s.len() - at < 2 + n {
        return None;
    }
    Some(2 + n)
}

// Where the sheet of a number stands, or where the last one ends.
pub fn place(s: &[u8], number: u16) -> usize
    ensures { Placed number s.now result }
{
    let sought = u64::from(number);
    let mut at = 0;
    // kept (3): no plainer: a sheet's length says where the next one begins, and the place is what is asked for, which an iterator would have beside it
    while let Some(n) = size_at(s, at) {
        if number_at(s, at + 3, 2) == sought {
            return at;
        }
        at += n;
    }
    at
}

// Where the last sheet ends.
pub fn book_end(s: &[u8]) -> usize
    ensures { (result ≡ length (joined (sheets s.now))) × (result ≤ length s.now) }
{
    let mut at = 0;
    // kept (3): no plainer: a sheet's length says where the next one begins, and the place is what is asked for, which an iterator would have beside it
    while let Some(n) = size_at(s, at) {
        at += n;
    }
    at
}
