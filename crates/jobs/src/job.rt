// A job read from its bytes.
ghost use Rattle.std.specs.Prelude.{◌≡◌, ◌+◌, ◌≤◌, length, drop};
ghost use Rattle.jobs.specs.Parsed.{said_parsed};
ghost use Rattle.jobs.specs.Job.{byte, head, rule_of, settings_of, counted, ends_from, corners_from, job_of, framed_job, roomed, corners as Job·corners, ends as Job·ends, parsed, left};

use crate::frame::{count_corners, good_head};
use crate::number::{float_at, number_at};
use crate::rings::{write_corners, write_ends};
use outlines::FillRule;
use refusal::{Refusal, unless};
use rules::Settings;

// A job's values; its corners and ring ends stand in the lent slices.
#[derive(Clone, Copy)]
pub struct Job {
    pub rule: FillRule,
    pub bottom_up: bool,
    pub stagger: u64,
    pub settings: Settings,
    pub corners: usize,
    pub rings: usize,
}

fn rule_of(b: u8) -> FillRule
    ensures { result ≡ rule_of b }
{
    if b == 0 {
        return FillRule::NonZero;
    }
    FillRule::EvenOdd
}

// c, s; spacing, len, inset and pull at a place
pub fn settings_of(s: &[u8], at: usize) -> Settings
    requires { (head ≤ length s.now) × (at + 32 ≤ length s.now) }
    ensures { result ≡ settings_of at s.now }
{
    Settings {
        spacing: float_at(s, at),
        len: float_at(s, at + 8),
        inset: float_at(s, at + 16),
        pull: float_at(s, at + 24),
        cosine: float_at(s, 12),
        sine: float_at(s, 20),
    }
}

fn job_of(s: &[u8], corners: usize) -> Job
    requires { head ≤ length s.now }
    ensures { result ≡ job_of s.now corners }
{
    let rule = rule_of(s[5]);
    let stagger = number_at(s, 8, 4);
    let settings = settings_of(s, 28);
    Job {
        rule,
        bottom_up: s[6] == 1,
        stagger,
        settings,
        corners,
        rings: s[7] as usize,
    }
}

// The job of a good head, where the rings begin at place 60 of `rest`. The whole framing is checked first; then corners and ring ends are written to the front of the lent slices.
pub fn framed(
    bytes: &[u8],
    rest: &[u8],
    corners: &mut [f64],
    ends: &mut [usize],
) -> Result<Job, Refusal>
    requires { (head ≤ length bytes.now) × (head ≤ length rest.now) }
    ensures value { said_parsed result ≡ roomed (length corners.old) (length ends.old) (framed_job bytes.now (counted (byte 7 bytes.now) 0 (drop head rest.now))) }
    ensures corners_after { corners.new ≡ left (said_parsed result) (corners_from (byte 7 bytes.now) (drop head rest.now)) corners.old }
    ensures ends_after { ends.new ≡ left (said_parsed result) (ends_from (byte 7 bytes.now) 0 (drop head rest.now)) ends.old }
{
    let rings = bytes[7] as usize;
    let Some(n) = count_corners(rest, rings) else {
        return Err(Refusal::Layout);
    };
    unless(Refusal::Room, 2 * n <= corners.len())?;
    unless(Refusal::Room, rings <= ends.len())?;
    write_ends(rest, rings, ends);
    write_corners(rest, rings, corners);
    Ok(job_of(bytes, n))
}

// Reads a job.
pub fn parse(bytes: &[u8], corners: &mut [f64], ends: &mut [usize]) -> Result<Job, Refusal>
    ensures value { said_parsed result ≡ parsed bytes.now (length corners.old) (length ends.old) }
    ensures corners_after { corners.new ≡ left (said_parsed result) (Job·corners bytes.now) corners.old }
    ensures ends_after { ends.new ≡ left (said_parsed result) (Job·ends bytes.now) ends.old }
{
    unless(Refusal::Layout, good_head(bytes, 1))?;
    framed(bytes, bytes, corners, ends)
}
