// The places of the pairs, window by window: no slice is needed to walk them.
ghost use Rattle.std.specs.Prelude.{◌≡◌, [], ◌∷◌, ◌<◌, ◌^◌, length, MatchOption};
ghost use Rattle.numbers.specs.Num.{◌⊖◌};
ghost use Rattle.geom.specs.Outline.{points};
ghost use Rattle.polyline.specs.Line.{shortest};
ghost use Rattle.satinrules.specs.Pairs.{origin, grows, kept, centre, total_of, place_at};
ghost use Rattle.pairing.specs.Walk.{pass_along, pass_of, walk_places};

use geom::P;
use geom::flat::Points;
use geom::steps::steps;
use leaves::of_u64;
use std::marker::Model;

// A pass: n steps of this length along the centre.
#[derive(Clone, Copy)]
pub struct Pass {
    pub n: u64,
    pub step: f64,
}

// The stretch between two sync points that are kept one after the other.
#[derive(Clone, Copy)]
pub struct Window {
    pub from: P,
    pub to: P,
}

impl Window {
    // Its length along the centre.
    fn centre(self) -> f64
        ensures { result ≡ centre self.from self.to }
    {
        ((self.to.x - self.from.x) + (self.to.y - self.from.y)) * 0.5
    }

    // Up to here it has places.
    fn end(self) -> f64
        ensures { result ≡ centre self.from self.to ⊖ shortest }
    {
        self.centre() - 1e-9
    }

    // The place at s.
    fn place(self, s: f64) -> P
        ensures { result ≡ place_at self.from self.to s }
    {
        let c = self.centre();
        let t = if c > 1e-12 { s / c } else { 0.0 };
        P {
            x: self.from.x + t * (self.to.x - self.from.x),
            y: self.from.y + t * (self.to.y - self.from.y),
        }
    }
}

// Strictly beyond p on both rails, and strictly below both lengths.
#[tactic(auto, unfolding(satinrules::specs::Pairs::grows))]
fn grows(ends: P, p: P, q: P) -> bool
    ensures { result ≡ grows ends p q }
{
    p.x < q.x && p.y < q.y && q.x < ends.x && q.y < ends.y
}

// The windows between the sync points that are kept; the last goes to the ends.
#[derive(Drop)]
pub struct Windows<'a> {
    sync: Points<'a>,
    ends: P,
    from: P,
    done: bool,
}

impl<'a> Model for Windows<'a> {
    ghost use Rattle.std.specs.Prelude.{List};
    ghost use Rattle.geom.specs.declared.point.P.{P};

    ghost Value = { P × List P };

    ghost use Rattle.std.specs.Prelude.{cond, []};
    ghost use Rattle.satinrules.specs.Pairs.{kept};

    ghost view = { λ s. (s.from, cond s.done [] (kept s.ends s.from s.sync)) };
}

impl<'a> Windows<'a> {
    pub fn of(sync: &'a [f64], ends: P) -> Windows<'a>
        ensures { result ≡ (origin, kept ends origin (points sync.now)) }
    {
        Windows {
            sync: Points::of(sync),
            ends,
            from: P { x: 0.0, y: 0.0 },
            done: false,
        }
    }
}

impl<'a> Iterator for Windows<'a> {
    type Item = Window;

    ghost use Rattle.std.specs.Iterator.{at_most};

    ghost next_gives = { λ s r t. MatchOption r ((s.1 ≡ []) × (t ≡ s)) (λ w. (w.from ≡ s.0) × (w.to ≡ t.0) × (s.1 ≡ t.0 ∷ t.1)) };

    ghost remaining = { λ s. at_most (length s.1) };

    fn next(&mut self) -> Option<Window> {
        if self.done {
            return None;
        }
        let from = self.from;
        while let Some(q) = self.sync.next() {
            if grows(self.ends, from, q) {
                self.from = q;
                return Some(Window { from, to: q });
            }
        }
        self.from = self.ends;
        self.done = true;
        Some(Window {
            from,
            to: self.ends,
        })
    }
}

// The places of a pass, one after the other: s into a window, as long as it has places and there are some left; the ends come last.
// Where the window ends is worked out once for it, and not at each place.
#[derive(Drop)]
pub struct Places<'a> {
    windows: Windows<'a>,
    window: Window,
    end: f64,
    s: f64,
    left: u64,
    step: f64,
    ends: Option<P>,
}

impl<'a> Model for Places<'a> {
    ghost use Rattle.std.specs.Prelude.{List};
    ghost use Rattle.geom.specs.declared.point.P.{P};

    ghost Value = { List P };

    ghost use Rattle.std.specs.Prelude.{◌≡◌};
    ghost use Rattle.numbers.specs.Num.{◌⊖◌};
    ghost use Rattle.polyline.specs.Line.{shortest};
    ghost use Rattle.satinrules.specs.Pairs.{centre};
    ghost use Rattle.pairing.specs.Walk.{places_left};

    ghost view = { λ s. places_left s.step s.window.from s.window.to s.windows s.s s.left s.ends };

    ghost invariant = { λ s. s.end ≡ centre s.window.from s.window.to ⊖ shortest };
}

impl<'a> Places<'a> {
    pub fn of(sync: &'a [f64], ends: P, pass: Pass) -> Places<'a>
        ensures { result ≡ walk_places ends (points sync.now) pass }
    {
        let origin = P { x: 0.0, y: 0.0 };
        let window = Window {
            from: origin,
            to: origin,
        };
        Places {
            windows: Windows::of(sync, ends),
            window,
            end: window.end(),
            s: 0.0,
            left: pass.n,
            step: pass.step,
            ends: Some(ends),
        }
    }
}

impl<'a> Iterator for Places<'a> {
    type Item = P;

    ghost use Rattle.std.specs.Iterator.{at_most};

    ghost next_gives = { λ s r t. MatchOption r ((s ≡ []) × (t ≡ [])) (λ p. s ≡ p ∷ t) };

    ghost remaining = { λ s. at_most (length s) };

    fn next(&mut self) -> Option<P> {
        while self.left == 0 || !(self.s < self.end) {
            let Some(w) = self.windows.next() else {
                return self.ends.take();
            };
            self.s = self.s - self.window.centre();
            self.window = w;
            self.end = w.end();
        }
        let place = self.window.place(self.s);
        self.s = self.s + self.step;
        self.left -= 1;
        Some(place)
    }
}

// The pass that `step` asks for along a centre of this length.
pub fn pass_along(length: f64, step: f64) -> Pass
    ensures { result ≡ pass_along length step }
{
    let n = steps(length, step);
    Pass {
        n,
        step: length / of_u64(n),
    }
}

// The rails in step: their sync points, and the place where both end.
#[derive(Clone, Copy)]
pub struct Course<'a> {
    pub sync: &'a [f64],
    pub ends: P,
}

impl<'a> Course<'a> {
    // The centre lengths of all windows, added up.
    pub fn total(self) -> f64
        ensures { result ≡ total_of self.entry.ends (points self.entry.sync.now) }
    {
        let mut sum = 0.0;
        for w in Windows::of(self.sync, self.ends) {
            sum += w.centre();
        }
        sum
    }

    // The pass that `step` asks for.
    pub fn pass(self, step: f64) -> Pass
        ensures { result ≡ pass_of self.entry.ends (points self.entry.sync.now) step }
    {
        pass_along(self.total(), step)
    }

    // How many places a pass has.
    pub fn count(self, pass: Pass) -> u64
        requires { pass.n < 2 ^ 63 }
        ensures { result ≡ length (walk_places self.entry.ends (points self.entry.sync.now) pass) }
    {
        Places::of(self.sync, self.ends, pass).count() as u64
    }
}
