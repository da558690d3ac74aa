// The points of a flat list of coordinates, x before y, one after another.
ghost use Rattle.std.specs.Prelude.{◌≡◌, [], ◌∷◌, length, MatchOption};
ghost use Rattle.geom.specs.Outline.{points};

use crate::point::P;
use std::marker::Model;

#[derive(Drop)]
pub struct Points<'a> {
    rest: &'a [f64],
}

impl<'a> Model for Points<'a> {
    ghost use Rattle.std.specs.Prelude.{List};
    ghost use Rattle.geom.specs.declared.point.P.{P};

    ghost Value = { List P };

    ghost use Rattle.geom.specs.Outline.{points};

    ghost view = { λ s. points s.rest.now };
}

impl<'a> Points<'a> {
    // An odd last number is dropped.
    pub fn of(line: &'a [f64]) -> Points<'a>
        ensures { result ≡ points line.now }
    {
        Points { rest: line }
    }
}

impl<'a> Iterator for Points<'a> {
    type Item = P;

    ghost use Rattle.std.specs.Iterator.{at_most};

    ghost next_gives = { λ s r t. MatchOption r ((s ≡ []) × (t ≡ [])) (λ p. s ≡ p ∷ t) };

    ghost remaining = { λ s. at_most (length s) };

    fn next(&mut self) -> Option<P> {
        if self.rest.len() < 2 {
            return None;
        }
        let p = P {
            x: self.rest[0],
            y: self.rest[1],
        };
        self.rest = &self.rest[2..];
        Some(p)
    }
}
