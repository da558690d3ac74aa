// Sections: their pieces sewn one after the other, counted, then written.
ghost use Rattle.std.specs.Prelude.{◌≡◌, ◌++◌, ◌+◌, ◌*◌, ◌<◌, ◌≤◌, ◌^◌, length, drop};
ghost use Rattle.seqs.specs.Lists.{each};
ghost use Rattle.seqs.specs.Slices.{Put};
ghost use Rattle.geom.specs.Sewing.{flat};
ghost use Rattle.rules.specs.Calls.{sewn_points, sewn_ends};
ghost use Rattle.sewing.specs.Within.{within};
ghost use Rattle.sewing.specs.Sewing.{section_sewn, first_sewn, Linked};

use crate::piece::Pieces;
use crate::stitch::{count_row, put_row};
use crate::thread::Thread;
use geom::P;

// How many points section s has, after c0 others, unless they pass the cap.
fn count_section(l: Pieces, s: usize, c0: u64, cap: u64) -> Option<u64>
    requires { (s < l.sections) × (c0 ≤ cap) × (cap < 2 ^ 63) }
    ensures { result ≡ within cap (c0 + length (section_sewn l.entry.thread.now.field l.entry.floats.now l.entry.wholes.now s)) }
{
    let t = l.thread;
    let n = t.field.pieces;
    let mut j = l.wholes[4 * n + s];
    if j >= n {
        return Some(c0);
    }
    let mut pen = l.start(j);
    let mut c = c0;
    // kept (3): no plainer: j goes along the links, not up by one
    while j < n {
        let w = l.row(j);
        c = count_row(t, w, pen, c, cap)?;
        pen = P {
            x: w.row.last,
            y: w.row.y,
        };
        j = l.wholes[3 * n + j];
    }
    Some(c)
}

// Section s, from k on.
fn put_section(out: &mut [f64], k: usize, l: Pieces, s: usize) -> usize
    requires { (s < l.sections) × (k + length (flat (section_sewn l.thread.now.field l.floats.now l.wholes.now s)) ≤ length out.old) }
    ensures { Put out.old out.new k (flat (section_sewn l.entry.thread.now.field l.entry.floats.now l.entry.wholes.now s)) × (result ≡ k + length (flat (section_sewn l.entry.thread.now.field l.entry.floats.now l.entry.wholes.now s))) }
{
    let t = l.thread;
    let n = t.field.pieces;
    let mut j = l.wholes[4 * n + s];
    if j >= n {
        return k;
    }
    let mut pen = l.start(j);
    let mut at = k;
    // kept (3): no plainer: j goes along the links, not up by one
    while j < n {
        let w = l.row(j);
        at = put_row(out, at, t, w, pen);
        pen = P {
            x: w.row.last,
            y: w.row.y,
        };
        j = l.wholes[3 * n + j];
    }
    at
}

// How many points the first sections have, unless they pass the cap.
pub fn count(floats: &[f64], wholes: &[usize], t: &Thread, sections: usize, cap: u64) -> Option<u64>
    requires { Linked t.now.field sections floats.now wholes.now × (cap < 2 ^ 63) }
    ensures { result ≡ within cap (length (each (λ s. s) (first_sewn t.now.field floats.now wholes.now sections))) }
{
    let l = Pieces {
        floats,
        wholes,
        thread: t,
        sections,
    };
    let mut c: u64 = 0;
    for s in 0..sections {
        c = count_section(l, s, c, cap)?;
    }
    Some(c)
}

// The points of the first sections to the front of `out`, x before y, and where each ends, in points, to the front of `ends`.
pub fn write(
    out: &mut [f64],
    ends: &mut [usize],
    floats: &[f64],
    wholes: &[usize],
    t: &Thread,
    sections: usize,
)
    requires { Linked t.now.field sections floats.now wholes.now × (length (flat (sewn_points (first_sewn t.now.field floats.now wholes.now sections))) ≤ length out.old) × (sections ≤ length ends.old) }
    ensures { (out.new ≡ flat (sewn_points (first_sewn t.now.field floats.now wholes.now sections)) ++ drop (length (flat (sewn_points (first_sewn t.now.field floats.now wholes.now sections)))) out.old) × (ends.new ≡ sewn_ends 0 (first_sewn t.now.field floats.now wholes.now sections) ++ drop (length (sewn_ends 0 (first_sewn t.now.field floats.now wholes.now sections))) ends.old) }
{
    let l = Pieces {
        floats,
        wholes,
        thread: t,
        sections,
    };
    let mut at = 0;
    for s in 0..sections {
        at = put_section(out, at, l, s);
        ends[s] = at / 2;
    }
}
