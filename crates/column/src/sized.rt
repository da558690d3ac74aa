// SIZE and N over the passes of a column that are sewn.
ghost use Rattle.std.specs.Prelude.{◌≡◌, true, [], ◌∷◌, ◌*◌, ◌≤◌, length};
ghost use Rattle.geom.specs.Outline.{points};
ghost use Rattle.satinrules.specs.Pairs.{total_of};
ghost use Rattle.satinrules.specs.Column.{only_if};
ghost use Rattle.satinrules.specs.Calls.{underlay_steps, top_steps, pass_steps, most};
ghost use Rattle.column.specs.Sized.{sized_at, places_if, under_of, passes_of, most_under, most_in, TopLaid};

use limits::MOST_PAIRS;
use pairing::Rails;
use pairing::places::{Course, Pass, pass_along};
use pairing::store::lay_pairs;
use passes::top::spaced;
use satin::underlay::{Under, runs};
use satinrules::Satin;

// The passes of a column: the underlay's, and the top's with its places.
#[derive(Clone, Copy)]
pub struct Passes {
    pub under: Under,
    pub top: Pass,
    pub t: usize,
}

// Whether the pass that `step` asks for is small enough, where it is sewn. The centre's length is added up once for all.
fn sized_if(sewn: bool, course: Course, length: f64, step: f64) -> bool
    requires { length ≡ total_of course.ends (points course.sync.now) }
    ensures { result ≡ sized_at course.entry.ends (points course.entry.sync.now) (only_if sewn (step ∷ [])) }
{
    if sewn {
        let pass = pass_along(length, step);
        return pass.n <= MOST_PAIRS;
    }
    true
}

// Whether each pass of the underlay that is sewn is small enough.
pub fn underlay_sized(course: Course, length: f64, g: Satin) -> bool
    requires { length ≡ total_of course.ends (points course.sync.now) }
    ensures { result ≡ sized_at course.entry.ends (points course.entry.sync.now) (underlay_steps g) }
{
    if !sized_if(runs(g), course, length, g.run_len) {
        return false;
    }
    let zigzag = g.underlay / 4 % 2 == 1;
    sized_if(zigzag, course, length, Satin::ZIGZAG_UNDERLAY_SPACING)
}

// Whether the top is small enough.
pub fn top_sized(course: Course, length: f64, g: Satin) -> bool
    requires { length ≡ total_of course.ends (points course.sync.now) }
    ensures { result ≡ sized_at course.entry.ends (points course.entry.sync.now) (top_steps g) }
{
    let style = g.style;
    sized_if(true, course, length, spaced(style, g.spacing))
}

// Whether both halves are small enough.
pub fn column_sized(course: Course, g: Satin) -> bool
    ensures { result ≡ sized_at course.entry.ends (points course.entry.sync.now) (pass_steps g) }
{
    let length = course.total();
    if !underlay_sized(course, length, g) {
        return false;
    }
    top_sized(course, length, g)
}

// How many places a pass has; none where it isn't sewn.
fn places_if(sewn: bool, course: Course, pass: Pass) -> usize
    requires { sewn ≡ true → pass.n ≤ 65536 }
    ensures { result ≡ places_if sewn course.entry.ends (points course.entry.sync.now) pass }
{
    if sewn {
        return course.count(pass) as usize;
    }
    0
}

// The underlay's passes, each that is sewn with its places counted.
pub fn underlay_passes(course: Course, length: f64, g: Satin) -> Under
    requires { (length ≡ total_of course.ends (points course.sync.now)) × (sized_at course.ends (points course.sync.now) (underlay_steps g) ≡ true) }
    ensures { result ≡ under_of course.entry.ends (points course.entry.sync.now) g }
{
    let run = pass_along(length, g.run_len);
    let n = places_if(runs(g), course, run);
    let zigzag = pass_along(length, Satin::ZIGZAG_UNDERLAY_SPACING);
    let m = places_if(g.underlay / 4 % 2 == 1, course, zigzag);
    Under { run, n, zigzag, m }
}

// The passes of both halves. The top's pairs are laid as they are counted, as far as the working slice has room: most columns are mostly top.
pub fn passes_of(work: &mut [f64], rails: Rails, g: Satin) -> Passes
    requires { sized_at rails.course.ends (points rails.course.sync.now) (pass_steps g) ≡ true }
    ensures { (result ≡ passes_of rails.entry.course.ends (points rails.entry.course.sync.now) g) × (length work.new ≡ length work.old) × (4 * result.t ≤ length work.old → TopLaid rails.entry.a.now rails.entry.b.now rails.entry.course.sync.now rails.entry.course.ends result work.new) }
{
    let style = g.style;
    let length = rails.course.total();
    let under = underlay_passes(rails.course, length, g);
    let top = pass_along(length, spaced(style, g.spacing));
    let t = lay_pairs(work, rails, top);
    Passes { under, top, t }
}

// The most places of any pass of the underlay.
#[tactic(auto, using(std::proofs::lemmas::Bool::Decides::nat_tests))]
pub fn underlay_most(u: Under) -> usize
    ensures { result ≡ most_under u }
{
    u.n.max(u.m)
}

// The most places of any pass.
#[tactic(auto, using(std::proofs::lemmas::Bool::Decides::nat_tests))]
pub fn column_most(p: Passes) -> usize
    ensures { result ≡ most_in p }
{
    underlay_most(p.under).max(p.t)
}
