// The program `fill`: one job from standard input, its points to standard output. All that decides anything is in `desk`
// and `jobs`; this reads, lends the slices that document 01 names, and prints.
#![tactic(auto)]

ghost use Rattle.std.specs.Prelude.{◌≡◌, ◌++◌, ◌≤◌, length, drop, replicate, IfOk};
ghost use Rattle.numbers.specs.Num.{zero64};
ghost use Rattle.tatami.specs.Left.{said_filled};
ghost use Rattle.layers.specs.Layers.{slices};
ghost use Rattle.desk.specs.Desk.{job_left};
ghost use Rattle.desk.specs.Desk2.{job2_left};
ghost use Rattle.desk.specs.Listing.{printed, printed1, printed2, Seen};

use desk::fill_job;
use desk::two::fill_job2;
use jobs::listing;
use layers::Both;
use refusal::Refusal;
use std::io;
use std::io::{Read, Write};
use tatami::Filled;

// A job, of version 2, has at most 97 + 2 * 255 + 16 * 1,024 bytes: one more is enough to see that it is too long.
const BYTES: usize = 16992;

// Room for the outline of every job.
const CORNERS: usize = 2048;

const RINGS: usize = 255;

// What document 01 lends: 8,192 of each working kind, 4,096 points and 512 sections. Each fill of a version 2 job is lent as much, and so is the table.
const WORK: usize = 8192;

const POINTS: usize = 8192;

const SECTIONS: usize = 512;

// Room for two listings: for each 63 bytes for the head line, and 55 for each point.
const LISTINGS: usize = 450686;

// The job filled.
fn fill(bytes: &[u8], points: &mut [f64], stops: &mut [usize]) -> Result<Filled, Refusal>
    ensures { Seen (said_filled result) points.new stops.new (job_left bytes.now 2048 255 points.old stops.old (replicate 8192 zero64) (replicate 8192 0)) }
{
    let mut corners = [0.0f64; CORNERS];
    let mut ends = [0usize; RINGS];
    let mut floats = [0.0f64; WORK];
    let mut wholes = [0usize; WORK];
    fill_job(
        bytes,
        &mut corners,
        &mut ends,
        points,
        stops,
        &mut floats,
        &mut wholes,
    )
}

// Both fills of a version 2 job.
fn fill2(
    bytes: &[u8],
    points: &mut [f64],
    stops: &mut [usize],
    points2: &mut [f64],
    stops2: &mut [usize],
) -> Both
    ensures seen { Seen (said_filled result.first) points.new stops.new (job2_left bytes.now 2048 255 (slices points.old stops.old (replicate 8192 zero64) (replicate 8192 0)) (slices points2.old stops2.old (replicate 8192 zero64) (replicate 8192 0)) (replicate 8192 zero64) (replicate 8192 0)).first }
    ensures seen_2 { Seen (said_filled result.second) points2.new stops2.new (job2_left bytes.now 2048 255 (slices points.old stops.old (replicate 8192 zero64) (replicate 8192 0)) (slices points2.old stops2.old (replicate 8192 zero64) (replicate 8192 0)) (replicate 8192 zero64) (replicate 8192 0)).second }
{
    let mut corners = [0.0f64; CORNERS];
    let mut ends = [0usize; RINGS];
    let mut table = [0.0f64; WORK];
    let mut places = [0usize; WORK];
    let mut floats = [0.0f64; WORK];
    let mut wholes = [0usize; WORK];
    let mut floats2 = [0.0f64; WORK];
    let mut wholes2 = [0usize; WORK];
    fill_job2(
        bytes,
        &mut corners,
        &mut ends,
        &mut table,
        &mut places,
        points,
        stops,
        &mut floats,
        &mut wholes,
        points2,
        stops2,
        &mut floats2,
        &mut wholes2,
    )
}

// What the head line says of a fill: its answer, how many sections and how many points; none after a refusal.
fn told(r: Result<Filled, Refusal>) -> (u64, u64, u64)
    ensures { (result.0 ≡ (said_filled r).answer) × (result.1 ≡ (said_filled r).sections) × (result.2 ≡ (said_filled r).points) }
{
    match r {
        Ok(f) => (0, f.sections, f.points),
        Err(e) => (u64::from(e), 0, 0),
    }
}

// All that is printed of a version 1 job, to the front of `out`; answers how many bytes.
fn answer1(bytes: &[u8], out: &mut [u8]) -> usize
    requires { 225343 ≤ length out.old }
    ensures out_after { out.new ≡ printed1 bytes.now ++ drop result out.old }
    ensures value { result ≡ length (printed1 bytes.now) }
{
    let mut points = [0.0f64; POINTS];
    let mut stops = [0usize; SECTIONS];
    let r = fill(bytes, &mut points, &mut stops);
    let (answer, sections, many) = told(r);
    listing(answer, sections as usize, many, &points, &stops, out)
}

// Of a version 2 job: the second fill's listing behind the first's.
fn answer2(bytes: &[u8], out: &mut [u8]) -> usize
    requires { 450686 ≤ length out.old }
    ensures out_after { out.new ≡ printed2 bytes.now ++ drop result out.old }
    ensures value { result ≡ length (printed2 bytes.now) }
{
    let mut points = [0.0f64; POINTS];
    let mut stops = [0usize; SECTIONS];
    let mut points2 = [0.0f64; POINTS];
    let mut stops2 = [0usize; SECTIONS];
    let r = fill2(bytes, &mut points, &mut stops, &mut points2, &mut stops2);
    let a = told(r.first);
    let k = listing(a.0, a.1 as usize, a.2, &points, &stops, out);
    let b = told(r.second);
    let m = listing(b.0, b.1 as usize, b.2, &points2, &stops2, &mut out[k..]);
    k + m
}

// All that is printed.
fn answer(bytes: &[u8], out: &mut [u8]) -> usize
    requires { 450686 ≤ length out.old }
    ensures out_after { out.new ≡ printed bytes.now ++ drop result out.old }
    ensures value { result ≡ length (printed bytes.now) }
{
    if bytes.len() < 5 {
        return answer1(bytes, out);
    }
    if bytes[4] == 2 {
        return answer2(bytes, out);
    }
    answer1(bytes, out)
}

// The prover computes an array's length where it is made: here once.
fn paper() -> [u8; LISTINGS]
    ensures { 450686 ≡ length result }
{
    [0; LISTINGS]
}

// Reads until `bytes` is full or the input ends; answers how many bytes.
fn read_full<R: Read>(input: &mut R, bytes: &mut [u8]) -> io::Result<usize>
    ensures { IfOk result (λ n. n ≤ length bytes.new) }
{
    let mut n = 0;
    // kept (3): no plainer: how far a turn goes is what the read gives
    while n < bytes.len() {
        let k = input.read(&mut bytes[n..])?;
        if k == 0 {
            break;
        }
        n += k;
    }
    Ok(n)
}

// A read or a write that fails ends the program with its error.
fn main(rt: HostRuntime) -> io::Result<()> {
    let mut bytes = [0u8; BYTES];
    let mut out = paper();
    let n = read_full(&mut rt.stdin(), &mut bytes)?;
    let k = answer(&bytes[..n], &mut out);
    rt.stdout().write_all(&out[..k])
}
