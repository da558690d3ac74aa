// What a point is: sewn, jumped to, or where the machine stops.
ghost use Rattle.std.specs.Prelude.{◌≡◌};

#[derive(Clone, Copy, Debug, PartialEq, Eq)]
pub enum Mark {
    Stitch,
    Jump,
    Stop,
}

// Its number in the slice of marks.
impl From<Mark> for u64 {
    ghost use Rattle.dst_read.specs.Mark.{mark_number};

    ghost from_gives = { λ m n. n ≡ mark_number m };

    fn from(m: Mark) -> u64 {
        match m {
            Mark::Stitch => 0,
            Mark::Jump => 1,
            Mark::Stop => 2,
        }
    }
}
