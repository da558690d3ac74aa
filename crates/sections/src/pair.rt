// A row and the one before it, whose pieces go to the right, as those of every accepted fill do (rules/specs/Theorems: rows-rise).
ghost use Rattle.std.specs.Prelude.{◌*◌, ◌≤◌, length};
ghost use Rattle.sections.specs.Rises.{Rising};
ghost use Rattle.sections.specs.RiseProps.{rising_prop};

use crate::Row;

#[derive(Clone, Copy)]
pub struct Pair<'a> {
    pub pieces: &'a [f64],
    pub s: Row,
    pub ghost opens: { s.b0 ≤ s.r0 },
    pub ghost row: { s.r0 ≤ s.r1 },
    pub ghost all: { s.r1 ≤ s.n },
    pub ghost floats: { 3 * s.n ≤ length pieces.now },
    pub ghost before: { Rising pieces.now s.b0 s.r0 } by { rising_prop pieces.now s.b0 s.r0 },
    pub ghost here: { Rising pieces.now s.r0 s.r1 } by { rising_prop pieces.now s.r0 s.r1 },
}
