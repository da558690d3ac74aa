// Document 01's table of answers, with those that requests add: why a call refuses.
#![tactic(auto)]

ghost use Rattle.std.specs.Prelude.{◌≡◌, true, false, MatchResult};

use std::error::Error;
use std::fmt;

// In the order of the checks. DONE, the answer 0, is an `Ok`.
#[derive(Clone, Copy, Debug, PartialEq, Eq, Hash)]
pub enum Refusal {
    // Counts and framing.
    Layout,
    // A number that is not finite, or too large.
    Number,
    // A setting outside its range.
    Setting,
    // A cosine and sine that turn nothing.
    Turn,
    // Too many rows, cells or pairs.
    Size,
    // A working slice below the need.
    Work,
    // An output slice below the answer.
    Room,
    // A stitch record that is turned away: request [5].
    Record,
    // The bytes run out before an end record.
    Cut,
    // The number of a sheet fetched or removed doesn't stand: request [13].
    Absent,
    // The sheet is of a later version.
    Version,
}

// A check: it refuses with e unless its test holds.
pub fn unless(e: Refusal, ok: bool) -> Result<(), Refusal>
    ensures { MatchResult result (λ _. ok ≡ true) (λ f. (f ≡ e) × (ok ≡ false)) }
{
    if ok { Ok(()) } else { Err(e) }
}

// The table's number.
impl From<Refusal> for u64 {
    ghost use Rattle.refusal.specs.Refusal.{number};

    ghost from_gives = { λ e n. n ≡ number e };

    fn from(e: Refusal) -> u64 {
        match e {
            Refusal::Layout => 1,
            Refusal::Number => 2,
            Refusal::Setting => 3,
            Refusal::Turn => 4,
            Refusal::Size => 5,
            Refusal::Work => 6,
            Refusal::Room => 7,
            Refusal::Record => 8,
            Refusal::Cut => 9,
            Refusal::Absent => 10,
            Refusal::Version => 11,
        }
    }
}

impl fmt::Display for Refusal {
    fn fmt<W: fmt::Write>(&self, f: &mut fmt::Formatter<W>) -> fmt::Result {
        match self {
            Refusal::Layout => write!(f, "counts or framing"),
            Refusal::Number => write!(f, "a number that is not finite, or too large"),
            Refusal::Setting => write!(f, "a setting outside its range"),
            Refusal::Turn => write!(f, "a cosine and sine that turn nothing"),
            Refusal::Size => write!(f, "too many rows, cells or pairs"),
            Refusal::Work => write!(f, "a working slice below the need"),
            Refusal::Room => write!(f, "an output slice below the answer"),
            Refusal::Record => write!(f, "a stitch record that is turned away"),
            Refusal::Cut => write!(f, "no end record"),
            Refusal::Absent => write!(f, "no sheet of this number"),
            Refusal::Version => write!(f, "a sheet of a later version"),
        }
    }
}

impl Error for Refusal {}
