// An outline with its fill rule and its heights: the winding number of a point, and what is inside.
ghost use Rattle.std.specs.Prelude.{◌≡◌};
ghost use Rattle.geom.specs.Rings.{rings_of};
ghost use Rattle.outlines.specs.Winding.{winding};
ghost use Rattle.outlines.specs.Heights.{Measured};
ghost use Rattle.outlines.specs.HeightsLaws.{measured_prop};
ghost use Rattle.outlines.specs.Inside.{point_inside, segment_inside};

use crate::rule::FillRule;
use crate::winding::ring;
use geom::steps::{along, steps};
use geom::{Outline, P};

#[derive(Clone, Copy)]
pub struct Area<'a> {
    pub outline: Outline<'a>,
    pub rule: FillRule,
    pub heights: &'a [f64],
    ghost measured: { Measured outline.corners.now outline.ends.now heights.now } by { measured_prop outline.corners.now outline.ends.now heights.now },
}

impl<'a> Area<'a> {
    // With no heights: for a few points they don't pay.
    pub fn of(outline: Outline<'a>, rule: FillRule) -> Area<'a>
        ensures lent { result.outline ≡ outline.entry }
        ensures ruled { result.rule ≡ rule }
    {
        Area {
            outline,
            rule,
            heights: &outline.corners[0..0],
        }
    }

    pub fn winding(self, p: P) -> i64
        ensures { result ≡ winding (rings_of self.entry.outline) p }
    {
        let mut w: i64 = 0;
        let mut a = 0;
        for (k, e) in self.outline.ends.iter().enumerate() {
            w += ring(self.outline.part(a, *e), self.heights, k, a, p);
            a = *e;
        }
        w
    }

    // Whether a point is inside.
    pub fn has(self, p: P) -> bool
        ensures { result ≡ point_inside (rings_of self.entry.outline) self.entry.rule p }
    {
        self.rule.inside(self.winding(p))
    }

    // Whether the points between a and b, one each `step`, are all inside.
    pub fn has_way(self, a: P, b: P, step: f64) -> bool
        ensures { result ≡ segment_inside (rings_of self.entry.outline) self.entry.rule a b step }
    {
        let n = steps(a.dist(b), step);
        for i in 1..n {
            if !self.has(along(a, b, n, i)) {
                return false;
            }
        }
        true
    }
}
