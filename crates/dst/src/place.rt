// A point in whole units.
ghost use Rattle.std.specs.Prelude.{◌≤◌};

// Lifted by the largest coordinate it is never negative, and differences stay what they are.
#[derive(Clone, Copy)]
pub struct Place {
    pub x: u64,
    pub y: u64,
    ghost fits: { (x ≤ 200000) × (y ≤ 200000) },
}
