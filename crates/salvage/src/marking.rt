// The marks of all corners, ring by ring.
ghost use Rattle.std.specs.Prelude.{◌≡◌, ◌*◌, length};
ghost use Rattle.salvage.specs.Salvage.{marks as marks_of};

use crate::ring::mark_ring;
use geom::Outline;

pub fn mark_outline(o: Outline, marks: &mut [usize])
    requires { length o.corners.now ≡ 2 * length marks.old }
    ensures { marks.new ≡ marks_of o.entry.corners.now o.entry.ends.now }
{
    let mut a = 0;
    for e in o.ends {
        mark_ring(o.part(a, *e), &mut marks[a..*e]);
        a = *e;
    }
}
