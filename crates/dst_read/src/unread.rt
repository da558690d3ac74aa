// Why a file isn't read.
ghost use Rattle.std.specs.Prelude.{◌≡◌};
ghost use Rattle.dst_read.specs.Unread.{unread, told};

use refusal::Refusal;

// With the number of the record where that is met.
#[derive(Clone, Copy, Debug, PartialEq, Eq)]
pub struct Unread {
    pub refusal: Refusal,
    pub number: u64,
}

impl Unread {
    // Of no record.
    pub fn of(refusal: Refusal) -> Unread
        ensures { result ≡ unread refusal 0 }
    {
        Unread { refusal, number: 0 }
    }

    // The call tells the number only of a record that is turned away.
    pub fn told(self) -> Unread
        ensures { result ≡ told self }
    {
        match self.refusal {
            Refusal::Record => self,
            other => Unread::of(other),
        }
    }
}
