// A sheet fetched by its number.
ghost use Rattle.std.specs.Prelude.{◌≡◌};
ghost use Rattle.book.specs.Fetched.{said_fetched};
ghost use Rattle.book.specs.Book.{fetched};

use crate::framing::good_book;
use crate::values::{Values, good_values, values_at};
use crate::walk::{place, size_at};
use refusal::{Refusal, unless};

// The values of the sheet with a number; the book is only read.
pub fn fetch(book: &[u8], number: u16) -> Result<Values, Refusal>
    ensures { said_fetched result ≡ fetched book.now number }
{
    unless(Refusal::Layout, good_book(book))?;
    let at = place(book, number);
    unless(Refusal::Absent, size_at(book, at).is_some())?;
    unless(Refusal::Version, book[at + 2] == 1)?;
    let v = values_at(book, at);
    unless(Refusal::Setting, good_values(v))?;
    Ok(v)
}
