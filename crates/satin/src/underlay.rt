// The underlay half of a column: its passes one after the other, over the pairs laid in the working slice.
ghost use Rattle.std.specs.Prelude.{◌≡◌, true, cond, ◌+◌, ◌*◌, ◌≤◌, length, take};
ghost use Rattle.seqs.specs.Slices.{put};
ghost use Rattle.geom.specs.Outline.{points};
ghost use Rattle.geom.specs.Sewing.{flat};
ghost use Rattle.satinrules.specs.Column.{bit, underlay};
ghost use Rattle.satinrules.specs.Settings.{zigzag_underlay_spacing};
ghost use Rattle.satinrules.specs.Calls.{rails_of};
ghost use Rattle.pairing.specs.Walk.{walk_places};
ghost use Rattle.pairing.specs.Store.{stored_pairs};
ghost use Rattle.passes.specs.Threads.{pairs_in};
ghost use Rattle.satin.specs.Underlay.{Fit, runs, over_if, runs_over, underlay_count};

use pairing::Rails;
use pairing::places::Pass;
use pairing::store::lay_pairs;
use passes::threads::{Thread, put_thread};
use satinrules::Satin;

// The passes of the underlay, and how many places each has; none where it isn't sewn.
#[derive(Clone, Copy)]
pub struct Under {
    pub run: Pass,
    pub n: usize,
    pub zigzag: Pass,
    pub m: usize,
}

// Whether the pass by run_len is sewn: for the centre, for the contour, or for both.
pub fn runs(g: Satin) -> bool
    ensures { result ≡ runs g }
{
    g.underlay % 2 == 1 || g.underlay / 2 % 2 == 1
}

// The pairs of a pass to the front of the working slice, where it is sewn.
fn lay_if(sewn: bool, work: &mut [f64], rails: Rails, pass: Pass)
    requires { sewn ≡ true → (pass.n ≤ 65536) × (4 * length (walk_places rails.course.ends (points rails.course.sync.now) pass) ≤ length work.old) }
    ensures { (length work.new ≡ length work.old) × (sewn ≡ true → take (4 * length (walk_places rails.entry.course.ends (points rails.entry.course.sync.now) pass)) work.new ≡ stored_pairs rails.entry.a.now rails.entry.b.now rails.entry.course.sync.now (walk_places rails.entry.course.ends (points rails.entry.course.sync.now) pass)) }
{
    if sewn {
        lay_pairs(work, rails, pass);
    }
}

// A pass over the pairs s where it is sewn, from k on; answers the place after it.
fn put_if(sewn: bool, out: &mut [f64], k: usize, s: &[f64], thread: Thread, back: bool) -> usize
    requires { k + 2 * length (over_if sewn thread back (pairs_in (points s.now))) ≤ length out.old }
    ensures { (out.new ≡ put out.old k (flat (over_if sewn thread back (pairs_in (points s.now))))) × (result ≡ k + 2 * length (over_if sewn thread back (pairs_in (points s.now)))) }
{
    if sewn {
        put_thread(out, k, s, thread, back)
    } else {
        k
    }
}

// The passes by run_len over the pairs s, to the front of out: the centre, then the contour out along one side and back along the other; answers the place after them.
fn put_runs(out: &mut [f64], s: &[f64], g: Satin) -> usize
    requires { 2 * length (runs_over g (pairs_in (points s.now))) ≤ length out.old }
    ensures { (out.new ≡ put out.old 0 (flat (runs_over g (pairs_in (points s.now))))) × (result ≡ 2 * length (runs_over g (pairs_in (points s.now)))) }
{
    let end = g.underlay % 2 == 1;
    let contour = g.underlay / 2 % 2 == 1;
    let c = put_if(end, out, 0, s, Thread::Middle, false);
    let k = put_if(contour, out, c, s, Thread::SideA, end);
    put_if(contour, out, k, s, Thread::SideB, !end)
}

// The whole underlay to the front of out: centre, contour and zigzag, in that order; answers the place after it. A pass that isn't sewn may be any.
pub fn put_underlay(work: &mut [f64], out: &mut [f64], rails: Rails, u: Under, g: Satin) -> usize
    requires { (runs g ≡ true → Fit rails.a.now rails.b.now rails.course.sync.now g.run_len rails.course.ends u.run u.n) × (bit g 4 ≡ true → Fit rails.a.now rails.b.now rails.course.sync.now zigzag_underlay_spacing rails.course.ends u.zigzag u.m) × (4 * u.n ≤ length work.old) × (4 * u.m ≤ length work.old) × (2 * length (underlay (rails_of rails.a.now rails.b.now rails.course.sync.now) g) ≤ length out.old) }
    ensures { (out.new ≡ put out.old 0 (flat (underlay (rails_of rails.entry.a.now rails.entry.b.now rails.entry.course.sync.now) g))) × (result ≡ 2 * length (underlay (rails_of rails.entry.a.now rails.entry.b.now rails.entry.course.sync.now) g)) × (length work.new ≡ length work.old) }
{
    let crossed = g.underlay / 4 % 2 == 1;
    lay_if(runs(g), work, rails, u.run);
    let k = put_runs(out, &work[0..4 * u.n], g);
    lay_if(crossed, work, rails, u.zigzag);
    put_if(
        crossed,
        out,
        k,
        &work[0..4 * u.m],
        Thread::Alternate,
        g.underlay % 2 == 1,
    )
}

// How many points the underlay has.
pub fn count_underlay(u: Under, g: Satin) -> usize
    requires { (u.n ≤ 65537) × (u.m ≤ 65537) }
    ensures { result ≡ underlay_count g u.n u.m }
{
    once(g.underlay % 2 == 1, u.n)
        + once(g.underlay / 2 % 2 == 1, 2 * u.n)
        + once(g.underlay / 4 % 2 == 1, u.m)
}

// n where it is sewn.
fn once(sewn: bool, n: usize) -> usize
    ensures { (result ≡ cond sewn n 0) × (result ≤ n) }
{
    if sewn { n } else { 0 }
}
