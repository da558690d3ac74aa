// Two rails that were accepted, in step, with the running lengths of both.
ghost use Rattle.std.specs.Prelude.{◌≡◌};
ghost use Rattle.geom.specs.Outline.{points};
ghost use Rattle.satinrules.specs.Arc.{lengths};
ghost use Rattle.pairing.specs.Store.{Laid, Ended};
ghost use Rattle.pairing.specs.LaidLaws.{laid_prop};

use crate::places::Course;
use geom::P;

// The running lengths of a stand at the front of `lengths`, and then those of b.
#[derive(Clone, Copy)]
pub struct Rails<'a> {
    pub a: &'a [f64],
    pub b: &'a [f64],
    pub lengths: &'a [f64],
    pub course: Course<'a>,
    ghost laid: { Laid a.now b.now lengths.now } by { laid_prop a.now b.now lengths.now },
}

impl<'a> Rails<'a> {
    // By their running lengths: the last of each is the rail's length.
    pub fn of(a: &'a [f64], b: &'a [f64], sync: &'a [f64], lengths: &'a [f64]) -> Rails<'a>
        requires { Laid a.now b.now lengths.now }
        ensures of_a { result.a.now ≡ a.entry.now }
        ensures of_b { result.b.now ≡ b.entry.now }
        ensures in_step { result.course.sync.now ≡ sync.entry.now }
        ensures ended { Ended result.a.now result.b.now result.course.ends }
    {
        let m = a.len() / 2;
        let n = b.len() / 2;
        Rails {
            a,
            b,
            lengths,
            course: Course {
                sync,
                ends: P {
                    x: lengths[m - 1],
                    y: lengths[m + n - 1],
                },
            },
        }
    }

    // The running lengths of a.
    pub fn along_a(self) -> &'a [f64]
        ensures { result.now ≡ lengths (points self.entry.a.now) }
    {
        &self.lengths[..self.a.len() / 2]
    }

    // The running lengths of b.
    pub fn along_b(self) -> &'a [f64]
        ensures { result.now ≡ lengths (points self.entry.b.now) }
    {
        let m = self.a.len() / 2;
        &self.lengths[m..m + self.b.len() / 2]
    }
}
