// An outline as it is lent: flat corners, x before y, and where each ring ends, counted in corners.
ghost use Rattle.std.specs.Prelude.{◌≡◌, ◌-◌, ◌*◌, ◌/◌, ◌≤◌, length, take, drop};
ghost use Rattle.geom.specs.Outline.{Layout};

#[derive(Clone, Copy)]
pub struct Outline<'a> {
    pub corners: &'a [f64],
    pub ends: &'a [usize],
    ghost laid: { Layout corners.now ends.now },
}

impl<'a> Outline<'a> {
    // Corners a to e, as a part of the list.
    pub fn part(self, a: usize, e: usize) -> &'a [f64]
        requires { (a ≤ e) × (e ≤ length self.corners.now / 2) }
        ensures { result.now ≡ take (2 * e - 2 * a) (drop (2 * a) self.entry.corners.now) }
    {
        &self.corners[2 * a..2 * e]
    }
}
