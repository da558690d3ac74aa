// The sheet book. Each calls the function of its name in `exports_other::sheets`, which says what it does, and states its clauses.
ghost use Rattle.std.specs.Prelude.{◌≡◌};
ghost use Rattle.book.specs.Book.{store_refusal, after_store, fetched, remove_refusal, after_remove};
ghost use Rattle.exports.specs.Stored.{first_or};
ghost use Rattle.exports_other.specs.Sheets.{values, said_sheet};

#[unsafe(no_mangle)]
pub extern "C" fn beahcerot_book_store(
    book: &mut [u8],
    number: u16,
    spacing: f64,
    len: f64,
    inset: f64,
    pull: f64,
    stagger: u64,
) -> u64
    ensures { (result ≡ store_refusal book.old number (values spacing len inset pull stagger)) × (book.new ≡ after_store book.old number (values spacing len inset pull stagger)) }
{
    exports_other::sheets::beahcerot_book_store(book, number, spacing, len, inset, pull, stagger)
}

#[unsafe(no_mangle)]
pub extern "C" fn beahcerot_book_fetch(
    book: &[u8],
    number: u16,
    spacing: &mut f64,
    len: &mut f64,
    inset: &mut f64,
    pull: &mut f64,
    stagger: &mut u64,
) -> u64
    ensures { (result ≡ (said_sheet (fetched book.now number)).number) × (spacing.new ≡ first_or (λ v. v.spacing) spacing.old (said_sheet (fetched book.now number)).values) × (len.new ≡ first_or (λ v. v.len) len.old (said_sheet (fetched book.now number)).values) × (inset.new ≡ first_or (λ v. v.inset) inset.old (said_sheet (fetched book.now number)).values) × (pull.new ≡ first_or (λ v. v.pull) pull.old (said_sheet (fetched book.now number)).values) × (stagger.new ≡ first_or (λ v. v.stagger) stagger.old (said_sheet (fetched book.now number)).values) }
{
    exports_other::sheets::beahcerot_book_fetch(book, number, spacing, len, inset, pull, stagger)
}

#[unsafe(no_mangle)]
pub extern "C" fn beahcerot_book_remove(book: &mut [u8], number: u16) -> u64
    ensures { (result ≡ remove_refusal book.old number) × (book.new ≡ after_remove book.old number) }
{
    exports_other::sheets::beahcerot_book_remove(book, number)
}
