// Working room that is always enough for `pairs` and `column`, so that no caller has to guess it. No place is walked: a pass of n steps has at most n + 1 pairs.
#![tactic(auto)]

ghost use Rattle.std.specs.Prelude.{◌≡◌, [], ◌∷◌, MatchResult};
ghost use Rattle.refusal.specs.Refusal.{DONE, SETTING, number, unless, ◌then◌};
ghost use Rattle.geom.specs.Outline.{points};
ghost use Rattle.satinrules.specs.Pairs.{ends_of};
ghost use Rattle.satinrules.specs.Column.{only_if};
ghost use Rattle.satinrules.specs.Calls.{rails_of, good_rails, pass_steps};
ghost use Rattle.satinroom.specs.Room.{said_room, largest_from, room_for, pairs_room_of, column_room_of};

use geom::P;
use limits::{MOST_PAIRS, good_step};
use pairing::places::Course;
use passes::top::spaced;
use polyline::polyline_length;
use refusal::{Refusal, unless};
use satin::rails::{accepted, few_corners, need};
use satin::underlay::runs;
use satinrules::{Satin, good_satin};

// The checks in front: LAYOUT, NUMBER and SETTING.
fn gate(a: &[f64], b: &[f64], sync: &[f64], good: bool) -> Result<(), Refusal>
    ensures { MatchResult result (λ _. (good_rails a.now b.now sync.now then unless SETTING good) ≡ DONE) (λ e. (good_rails a.now b.now sync.now then unless SETTING good) ≡ number e) }
{
    accepted(a, b, sync)?;
    unless(Refusal::Setting, good)
}

// The place where both rails end.
fn ends_of(a: &[f64], b: &[f64]) -> P
    ensures { result ≡ ends_of (rails_of a.now b.now []) }
{
    P {
        x: polyline_length(a),
        y: polyline_length(b),
    }
}

// The larger of m and the n of a pass, where it is sewn.
#[tactic(auto, using(crate::specs::RoomLaws::most_max), unfolding(crate::specs::Room::largest_from, pairing::specs::Walk::pass_of))]
fn larger_pass(m: u64, sewn: bool, course: Course, step: f64) -> u64
    ensures { result ≡ largest_from course.entry.ends (points course.entry.sync.now) m (only_if sewn (step ∷ [])) }
{
    if sewn { m.max(course.pass(step).n) } else { m }
}

// The largest n of the passes of a column that are sewn.
fn largest_pass(course: Course, g: Satin) -> u64
    ensures { result ≡ largest_from course.entry.ends (points course.entry.sync.now) 0 (pass_steps g) }
{
    let style = g.style;
    let run = larger_pass(0, runs(g), course, g.run_len);
    let crossed = g.underlay / 4 % 2 == 1;
    let under = larger_pass(run, crossed, course, Satin::ZIGZAG_UNDERLAY_SPACING);
    larger_pass(under, true, course, spaced(style, g.spacing))
}

// SIZE, or the need of one pair more than n.
fn room_for(a: &[f64], b: &[f64], sync: &[f64], n: u64) -> Result<u64, Refusal>
    ensures { said_room result ≡ room_for (rails_of a.now b.now sync.now) n }
{
    if n > MOST_PAIRS {
        return Err(Refusal::Size);
    }
    Ok(need(a, b, sync, n as usize + 1) as u64)
}

// How many floats are enough for `pairs`.
pub fn pairs_room(a: &[f64], b: &[f64], sync: &[f64], step: f64) -> Result<u64, Refusal>
    ensures { said_room result ≡ pairs_room_of a.now b.now sync.now step }
{
    gate(a, b, sync, good_step(step))?;
    if few_corners(a, b) {
        return Ok(0);
    }
    let ends = ends_of(a, b);
    let n = larger_pass(0, true, Course { sync, ends }, step);
    room_for(a, b, sync, n)
}

// How many floats are enough for `column`.
pub fn column_room(a: &[f64], b: &[f64], sync: &[f64], g: Satin) -> Result<u64, Refusal>
    ensures { said_room result ≡ column_room_of a.now b.now sync.now g }
{
    gate(a, b, sync, good_satin(g))?;
    if few_corners(a, b) {
        return Ok(0);
    }
    let ends = ends_of(a, b);
    let n = largest_pass(Course { sync, ends }, g);
    room_for(a, b, sync, n)
}
