// Sheets stored and removed by number.
ghost use Rattle.std.specs.Prelude.{◌≡◌};
ghost use Rattle.refusal.specs.Refusal.{said};
ghost use Rattle.book.specs.Book.{store_refusal, after_store, remove_refusal, after_remove};

use crate::framing::good_book;
use crate::values::{Values, good_values};
use crate::walk::{book_end, place, size_at};
use crate::writing::{move_down, put_sheet, zero_from};
use refusal::{Refusal, unless};

// In the place of the sheet with that number, or behind the last.
pub fn store(book: &mut [u8], number: u16, v: Values) -> Result<(), Refusal>
    ensures value { (said result).number ≡ store_refusal book.old number v }
    ensures book_after { book.new ≡ after_store book.old number v }
{
    unless(Refusal::Layout, good_book(book))?;
    unless(Refusal::Setting, good_values(v))?;
    let at = place(book, number);
    if size_at(book, at).is_none() {
        unless(Refusal::Room, 41 <= book.len() - at)?;
        put_sheet(number, v, book, at);
        zero_from(book, at + 41);
        return Ok(());
    }
    unless(Refusal::Version, book[at + 2] == 1)?;
    let end = book_end(book);
    put_sheet(number, v, book, at);
    zero_from(book, end);
    Ok(())
}

// The sheets behind it move forward.
pub fn remove(book: &mut [u8], number: u16) -> Result<(), Refusal>
    ensures value { (said result).number ≡ remove_refusal book.old number }
    ensures book_after { book.new ≡ after_remove book.old number }
{
    unless(Refusal::Layout, good_book(book))?;
    let at = place(book, number);
    let Some(n) = size_at(book, at) else {
        return Err(Refusal::Absent);
    };
    unless(Refusal::Version, book[at + 2] == 1)?;
    let end = book_end(book);
    move_down(book, at, at + n, end);
    zero_from(book, end - n);
    Ok(())
}
