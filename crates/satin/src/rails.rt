// What `pairs` and `column` look at first, and the need.
ghost use Rattle.std.specs.Prelude.{◌≡◌, [], ◌≤◌, MatchResult};
ghost use Rattle.refusal.specs.Refusal.{DONE, number};
ghost use Rattle.satinrules.specs.Pairs.{few};
ghost use Rattle.satinrules.specs.Calls.{rails_of, good_sync, good_rails, need};

use limits::{MOST_SYNCS, good_line, good_numbers};
use refusal::{Refusal, unless};

// The running lengths of two rails of 1,024 corners.
pub const BOTH_RAILS: usize = 2048;

// The layout of the sync points.
#[tactic(auto, unfolding(satinrules::specs::Calls::good_sync))]
fn good_sync(sync: &[f64]) -> bool
    ensures { result ≡ good_sync sync.now }
{
    sync.len() % 2 == 0 && sync.len() / 2 <= MOST_SYNCS
}

// The checks of the rails and the sync points: LAYOUT, and then NUMBER.
#[tactic(auto, unfolding(satinrules::specs::Calls::good_rails))]
pub fn accepted(a: &[f64], b: &[f64], sync: &[f64]) -> Result<(), Refusal>
    ensures { MatchResult result (λ _. good_rails a.now b.now sync.now ≡ DONE) (λ e. good_rails a.now b.now sync.now ≡ number e) }
{
    unless(Refusal::Layout, good_line(a))?;
    unless(Refusal::Layout, good_line(b))?;
    unless(Refusal::Layout, good_sync(sync))?;
    unless(Refusal::Number, good_numbers(a))?;
    unless(Refusal::Number, good_numbers(b))?;
    unless(Refusal::Number, good_numbers(sync))
}

// Whether a rail has under 2 corners.
pub fn few_corners(a: &[f64], b: &[f64]) -> bool
    ensures { result ≡ few (rails_of a.now b.now []) }
{
    a.len() / 2 < 2 || b.len() / 2 < 2
}

// How many floats a call needs whose largest pass has n pairs.
pub fn need(a: &[f64], b: &[f64], sync: &[f64], n: usize) -> usize
    requires { n ≤ 65537 }
    ensures { result ≡ need (rails_of a.now b.now sync.now) n }
{
    a.len() / 2 + b.len() / 2 + 2 * (sync.len() / 2) + 4 + 8 * n
}
