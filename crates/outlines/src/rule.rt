// Which winding numbers are inside.
ghost use Rattle.std.specs.Prelude.{◌≡◌};
ghost use Rattle.outlines.specs.Inside.{inside};

#[derive(Clone, Copy)]
pub enum FillRule {
    NonZero,
    EvenOdd,
}

impl FillRule {
    // The source's `winding & 1 == 1` is an odd number, below zero too.
    pub fn inside(self, winding: i64) -> bool
        ensures { result ≡ inside self winding }
    {
        match self {
            FillRule::NonZero => winding != 0,
            FillRule::EvenOdd => winding % 2 != 0,
        }
    }
}
