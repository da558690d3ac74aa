// Where the reading of a file stops, and with which answer: nothing is written before that is known.
ghost use Rattle.std.specs.Prelude.{◌≡◌};
ghost use Rattle.dst_read.specs.Reading.{verdict};
ghost use Rattle.dst_read.specs.Unread.{said_verdict};

use crate::names::MOST_RECORDS;
use crate::records::Record;
use crate::unread::Unread;
use refusal::Refusal;

// How many records stand before the end.
pub fn scan(bytes: &[u8]) -> Result<usize, Unread>
    ensures { said_verdict result ≡ verdict 0 bytes.now }
{
    let whole = bytes.len() / 3;
    for r in 0..whole {
        let record = Record::at(bytes, r);
        if record.is_end() {
            return Ok(r);
        }
        let number = r as u64;
        if r >= MOST_RECORDS {
            return Err(Unread {
                refusal: Refusal::Size,
                number,
            });
        }
        if record.is_bad() {
            return Err(Unread {
                refusal: Refusal::Record,
                number,
            });
        }
    }
    Err(Unread {
        refusal: Refusal::Cut,
        number: whole as u64,
    })
}
