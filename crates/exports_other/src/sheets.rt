// The sheet book: each call answers a refusal's number; a refusal changes no byte. A fetch stores the five values where its answer is DONE.
ghost use Rattle.std.specs.Prelude.{◌≡◌};
ghost use Rattle.refusal.specs.Refusal.{said};
ghost use Rattle.book.specs.Fetched.{said_fetched};
ghost use Rattle.book.specs.Book.{store_refusal, after_store, fetched, remove_refusal, after_remove};
ghost use Rattle.exports.specs.Stored.{first_or};
ghost use Rattle.exports_other.specs.Sheets.{values, said_sheet};

use book::Values;
use refusal::Refusal;

// The number of an answer that has no value.
fn number_of(r: Result<(), Refusal>) -> u64
    ensures { result ≡ (said r).number }
{
    match r {
        Ok(()) => 0,
        Err(e) => u64::from(e),
    }
}

#[unsafe(no_mangle)]
pub extern "C" fn beahcerot_book_store(
    book: &mut [u8],
    number: u16,
    spacing: f64,
    len: f64,
    inset: f64,
    pull: f64,
    stagger: u64,
) -> u64
    ensures { (result ≡ store_refusal book.old number (values spacing len inset pull stagger)) × (book.new ≡ after_store book.old number (values spacing len inset pull stagger)) }
{
    let v = Values {
        spacing,
        len,
        inset,
        pull,
        stagger,
    };
    number_of(book::store(book, number, v))
}

// The five values to their places; a refusal leaves them.
fn store_values(
    r: Result<Values, Refusal>,
    spacing: &mut f64,
    len: &mut f64,
    inset: &mut f64,
    pull: &mut f64,
    stagger: &mut u64,
) -> u64
    ensures { (result ≡ (said_sheet (said_fetched r)).number) × (spacing.new ≡ first_or (λ v. v.spacing) spacing.old (said_sheet (said_fetched r)).values) × (len.new ≡ first_or (λ v. v.len) len.old (said_sheet (said_fetched r)).values) × (inset.new ≡ first_or (λ v. v.inset) inset.old (said_sheet (said_fetched r)).values) × (pull.new ≡ first_or (λ v. v.pull) pull.old (said_sheet (said_fetched r)).values) × (stagger.new ≡ first_or (λ v. v.stagger) stagger.old (said_sheet (said_fetched r)).values) }
{
    match r {
        Ok(v) => {
            *spacing = v.spacing;
            *len = v.len;
            *inset = v.inset;
            *pull = v.pull;
            *stagger = v.stagger;
            0
        }
        Err(e) => u64::from(e),
    }
}

#[unsafe(no_mangle)]
pub extern "C" fn beahcerot_book_fetch(
    book: &[u8],
    number: u16,
    spacing: &mut f64,
    len: &mut f64,
    inset: &mut f64,
    pull: &mut f64,
    stagger: &mut u64,
) -> u64
    ensures { (result ≡ (said_sheet (fetched book.now number)).number) × (spacing.new ≡ first_or (λ v. v.spacing) spacing.old (said_sheet (fetched book.now number)).values) × (len.new ≡ first_or (λ v. v.len) len.old (said_sheet (fetched book.now number)).values) × (inset.new ≡ first_or (λ v. v.inset) inset.old (said_sheet (fetched book.now number)).values) × (pull.new ≡ first_or (λ v. v.pull) pull.old (said_sheet (fetched book.now number)).values) × (stagger.new ≡ first_or (λ v. v.stagger) stagger.old (said_sheet (fetched book.now number)).values) }
{
    store_values(
        book::fetch(book, number),
        spacing,
        len,
        inset,
        pull,
        stagger,
    )
}

#[unsafe(no_mangle)]
pub extern "C" fn beahcerot_book_remove(book: &mut [u8], number: u16) -> u64
    ensures { (result ≡ remove_refusal book.old number) × (book.new ≡ after_remove book.old number) }
{
    number_of(book::remove(book, number))
}
