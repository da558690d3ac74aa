// The sides of an outline's rings, one at a time, as the fill turns them.
ghost use Rattle.std.specs.Prelude.{◌≡◌, [], ◌∷◌, MatchOption};
ghost use Rattle.std.specs.Float.Ieee.{neg};
ghost use Rattle.geom.specs.Outline.{points};
ghost use Rattle.geom.specs.Point.{rotate};
ghost use Rattle.geom.specs.Rings.{rings_of};
ghost use Rattle.rules.specs.Fill.{sides, turned};
ghost use Rattle.edges.specs.Sides.{all_sides};

use geom::flat::Points;
use geom::{Outline, P};
use rules::Settings;
use std::marker::Model;

// Corners are turned by (c, -s).
fn turned(g: Settings, p: P) -> P
    ensures { result ≡ rotate p g.cosine (neg g.sine) }
{
    p.rotate(g.cosine, -g.sine)
}

// The sides of a ring that are left: its first corner and the one where the next side begins, both turned, and the corners behind.
#[derive(Drop)]
pub struct RingSides<'a> {
    g: Settings,
    from: Option<(P, P)>,
    rest: Points<'a>,
}

impl<'a> Model for RingSides<'a> {
    ghost use Rattle.std.specs.Prelude.{List};
    ghost use Rattle.geom.specs.declared.point.P.{P};

    ghost Value = { List (P × P) };

    ghost use Rattle.edges.specs.Sides.{ring_left};

    ghost view = { ring_left };
}

impl<'a> RingSides<'a> {
    // A ring under three corners has none.
    pub fn of(ring: &'a [f64], g: Settings) -> RingSides<'a>
        ensures { result ≡ sides (turned g (points ring.now)) }
    {
        let mut rest = Points::of(ring);
        let from = match rest.next() {
            Some(p) if ring.len() >= 6 => {
                let first = turned(g, p);
                Some((first, first))
            }
            _ => None,
        };
        RingSides { g, from, rest }
    }
}

impl<'a> Iterator for RingSides<'a> {
    type Item = (P, P);

    ghost use Rattle.std.specs.Iterator.{at_most};
    ghost use Rattle.std.specs.Prelude.{length};

    ghost next_gives = { λ s r t. MatchOption r ((s ≡ []) × (t ≡ [])) (λ ab. s ≡ ab ∷ t) };

    ghost remaining = { λ s. at_most (length s) };

    fn next(&mut self) -> Option<(P, P)> {
        let (first, a) = self.from?;
        match self.rest.next() {
            Some(p) => {
                let b = turned(self.g, p);
                self.from = Some((first, b));
                Some((a, b))
            }
            None => {
                self.from = None;
                Some((a, first))
            }
        }
    }
}

// The sides of all rings that are left: those of a ring, and the rings from corner `begun` on.
#[derive(Drop)]
pub struct Sides<'a> {
    outline: Outline<'a>,
    g: Settings,
    ring: RingSides<'a>,
    begun: usize,
    ends: &'a [usize],
}

impl<'a> Model for Sides<'a> {
    ghost use Rattle.std.specs.Prelude.{List};
    ghost use Rattle.geom.specs.declared.point.P.{P};

    ghost Value = { List (P × P) };

    ghost use Rattle.edges.specs.Sides.{left, Rising};

    ghost view = { left };

    ghost invariant = { Rising };
}

impl<'a> Sides<'a> {
    pub fn of(outline: Outline<'a>, g: Settings) -> Sides<'a>
        ensures { result ≡ all_sides g (rings_of outline.entry) }
    {
        Sides {
            outline,
            g,
            ring: RingSides::of(&outline.corners[..0], g),
            begun: 0,
            ends: outline.ends,
        }
    }
}

impl<'a> Iterator for Sides<'a> {
    type Item = (P, P);

    ghost use Rattle.std.specs.Iterator.{at_most};
    ghost use Rattle.std.specs.Prelude.{length};

    ghost next_gives = { λ s r t. MatchOption r ((s ≡ []) × (t ≡ [])) (λ ab. s ≡ ab ∷ t) };

    ghost remaining = { λ s. at_most (length s) };

    fn next(&mut self) -> Option<(P, P)> {
        loop {
            if let Some(side) = self.ring.next() {
                return Some(side);
            }
            let (end, later) = self.ends.split_first()?;
            self.ring = RingSides::of(self.outline.part(self.begun, *end), self.g);
            self.begun = *end;
            self.ends = later;
        }
    }
}
