// Sections: every piece of the row list gets its mark, its section's number and its place in that section.
// Pieces stand as blocks of three floats (y, xa, xb). Of the whole numbers the first n are the pieces' rows, and the marks
// come after them, as blocks of two.
// kept (6): rule: document 01 lends the slices, and there is no heap
#![tactic(auto)]

ghost use Rattle.std.specs.Prelude.{◌≡◌, ◌+◌, ◌-◌, ◌*◌, ◌≤◌, ◌<◌, length};
ghost use Rattle.seqs.specs.Lists.{All};
ghost use Rattle.seqs.specs.Slices.{Wrote};
ghost use Rattle.geom.specs.Rings.{rings_of};
ghost use Rattle.rules.specs.Fill.{overlap, link_ends, link_inside, connects, begun};
ghost use Rattle.rules.specs.Rise.{Rise};
ghost use Rattle.sections.specs.Mark.{piece_in, entry_in, Within, Low, joins_at, mark_at, after_at, flat_mark, row_marks, row_new, flat_marks, row_end, rows_in, marked_in};

mod pair;
mod rise;

use crate::pair::Pair;
use crate::rise::{meets_one, only_open};
use geom::steps::along;
use geom::{Outline, P};
use leaves::smaller;
use outlines::heights::{HEIGHTS, heights};
use outlines::{Area, FillRule};
use rules::{Entry, Piece, Settings};

#[derive(Clone, Copy)]
pub struct Mark {
    pub section: usize,
    pub nth: usize,
}

// Where a row lies: of n pieces, the row before from b0 to r0, this one from r0 to r1.
#[derive(Clone, Copy)]
pub struct Row {
    pub n: usize,
    pub b0: usize,
    pub r0: usize,
    pub r1: usize,
}

// The piece at place i. Its row's number plays no part here.
fn piece_at(pieces: &[f64], i: usize) -> Piece
    requires { 3 * i + 2 < length pieces.now }
    ensures { result ≡ piece_in pieces.now i }
{
    let k = 3 * i;
    Piece {
        k: 0,
        y: pieces[k],
        xa: pieces[k + 1],
        xb: pieces[k + 2],
    }
}

#[tactic(auto, unfolding(rules::specs::Fill::overlap))]
fn overlap(last: Piece, next: Piece) -> bool
    ensures { result ≡ overlap last next }
{
    last.xa < next.xb && next.xa < last.xb
}

// The piece at place t with its mark.
fn entry_at(pieces: &[f64], wholes: &[usize], n: usize, t: usize) -> Entry
    requires { (3 * t + 2 < length pieces.now) × (n + 2 * t + 1 < length wholes.now) }
    ensures { result ≡ entry_in pieces.now wholes.now n t }
{
    let k = n + 2 * t;
    Entry {
        piece: piece_at(pieces, t),
        section: wholes[k] as u64,
        nth: wholes[k + 1] as u64,
    }
}

// The way from an open section's last piece to the next.
#[derive(Clone, Copy)]
pub struct Link {
    pub from: P,
    pub to: P,
}

// A section whose last piece has an even place ends at xb. Both ends are moved inward by eps.
fn link_ends(o: Entry, next: Piece) -> Link
    ensures { (result.from ≡ (link_ends o next).0) × (result.to ≡ (link_ends o next).1) }
{
    let last = o.piece;
    let eps = smaller(
        smaller(1.0, (last.xb - last.xa) * 0.25),
        (next.xb - next.xa) * 0.25,
    );
    if o.nth % 2 == 0 {
        return Link {
            from: P {
                x: last.xb + -1.0 * eps,
                y: last.y,
            },
            to: P {
                x: next.xb + -1.0 * eps,
                y: next.y,
            },
        };
    }
    Link {
        from: P {
            x: last.xa + 1.0 * eps,
            y: last.y,
        },
        to: P {
            x: next.xa + 1.0 * eps,
            y: next.y,
        },
    }
}

// Point k of four on the way, turned back, is inside.
fn link_inside(area: Area, g: Settings, link: Link, k: u64) -> bool
    ensures { result ≡ link_inside (rings_of area.entry.outline) area.entry.rule g (link.from, link.to) k }
{
    let q = along(link.from, link.to, 4, k).rotate(g.cosine, g.sine);
    area.has(q)
}

// Three points of the link are inside.
#[tactic(auto, unfolding(rules::specs::Fill::connects))]
fn connects(area: Area, g: Settings, o: Entry, next: Piece) -> bool
    ensures { result ≡ connects (rings_of area.entry.outline) area.entry.rule g o next }
{
    let link = link_ends(o, next);
    link_inside(area, g, link, 1) && link_inside(area, g, link, 2) && link_inside(area, g, link, 3)
}

// What all rows of a fill share.
#[derive(Clone, Copy)]
pub struct Fill {
    pub rule: FillRule,
    pub settings: Settings,
}

// The open place that the piece at j joins, if there is one.
fn joins(area: Area, g: Settings, l: Pair, wholes: &[usize], j: usize) -> Option<usize>
    requires { (3 * l.s.n ≤ length wholes.now) × (j < l.s.r1) × (l.s.r0 ≤ j) }
    ensures { (result ≡ joins_at (rings_of area.entry.outline) area.entry.rule g l.entry.pieces.now wholes.now l.entry.s j) × Within result l.entry.s.b0 l.entry.s.r0 }
{
    let p = piece_at(l.pieces, j);
    let t = only_open(l, p)?;
    let o = entry_at(l.pieces, wholes, l.s.n, t);
    if !meets_one(l, j, o.piece) {
        return None;
    }
    if connects(area, g, o, p) {
        return Some(t);
    }
    None
}

// The mark of the piece at j, where a new section gets the number `new`.
#[tactic(auto, unfolding(crate::specs::Mark::mark_at))]
fn mark_at(area: Area, g: Settings, l: Pair, wholes: &[usize], new: usize, j: usize) -> Mark
    requires { (3 * l.s.n ≤ length wholes.now) × (j < l.s.r1) × Low l.s.n l.s.b0 l.s.r0 wholes.now 1000000 × (l.s.r0 ≤ j) }
    ensures { result ≡ mark_at (rings_of area.entry.outline) area.entry.rule g l.entry.pieces.now wholes.now l.entry.s new j }
{
    match joins(area, g, l, wholes, j) {
        None => Mark {
            section: new,
            nth: 0,
        },
        Some(t) => {
            let k = l.s.n + 2 * t;
            Mark {
                section: wholes[k],
                nth: wholes[k + 1] + 1,
            }
        }
    }
}

fn after(new: usize, m: Mark) -> usize
    requires { new ≤ 1000000000 }
    ensures { (result ≡ after_at new m) × (result ≤ new + 1) }
{
    if m.nth == 0 { new + 1 } else { new }
}

fn put_mark(wholes: &mut [usize], k: usize, m: Mark)
    requires { k + 1 < length wholes.old }
    ensures { Wrote wholes.old wholes.new k (flat_mark m) }
{
    wholes[k] = m.section;
    wholes[k + 1] = m.nth;
}

// The marks of a row's pieces; the number of the next new section.
fn mark_row(area: Area, g: Settings, l: Pair, wholes: &mut [usize], new: usize) -> usize
    requires { (3 * l.s.n ≤ length wholes.old) × Low l.s.n l.s.b0 l.s.r0 wholes.old 1000000 × (l.s.n ≤ 10000000) × (new ≤ l.s.r0) }
    ensures { Wrote wholes.old wholes.new (l.entry.s.n + 2 * l.entry.s.r0) (row_marks (rings_of area.entry.outline) area.entry.rule g l.entry.pieces.now wholes.old l.entry.s new l.entry.s.r0 (l.entry.s.r1 - l.entry.s.r0)) × (result ≡ row_new (rings_of area.entry.outline) area.entry.rule g l.entry.pieces.now wholes.old l.entry.s new l.entry.s.r0 (l.entry.s.r1 - l.entry.s.r0)) × (result ≤ l.entry.s.r1) }
{
    let mut section = new;
    for j in l.s.r0..l.s.r1 {
        let m = mark_at(area, g, l, wholes, section, j);
        put_mark(wholes, l.s.n + 2 * j, m);
        section = after(section, m);
    }
    section
}

// Where row r ends that starts at place i: the first place from there on whose row isn't r.
fn row_end(wholes: &[usize], n: usize, i: usize, r: usize) -> usize
    requires { (i ≤ n) × (n ≤ length wholes.now) }
    ensures { (result ≡ row_end wholes.now n i r) × (i ≤ result) × (result ≤ n) }
{
    for (k, row) in wholes[i..n].iter().enumerate() {
        if *row != r {
            return i + k;
        }
    }
    n
}

// The marks of all pieces, row by row.
fn mark_rows(
    area: Area,
    g: Settings,
    pieces: &[f64],
    wholes: &mut [usize],
    n: usize,
    rows: usize,
) -> usize
    requires { (3 * n ≤ length pieces.now) × (3 * n ≤ length wholes.old) × (n ≤ 10000000) × (rows ≤ 4096) × All Rise (rows_in pieces.now wholes.old n 0 0 rows) }
    ensures { Wrote wholes.old wholes.new n (flat_marks (marked_in (rings_of area.entry.outline) area.entry.rule g pieces.now wholes.old n rows)) × (result ≡ begun (marked_in (rings_of area.entry.outline) area.entry.rule g pieces.now wholes.old n rows)) × (result ≤ n) }
{
    let mut b0 = 0;
    let mut r0 = 0;
    let mut section = 0;
    for r in 0..rows {
        let r1 = row_end(wholes, n, r0, r);
        let l = Pair {
            pieces,
            s: Row { n, b0, r0, r1 },
        };
        section = mark_row(area, g, l, wholes, section);
        b0 = r0;
        r0 = r1;
    }
    section
}

// The marks of all pieces, row by row, of rows that rise; the number of sections. Pieces of later rows get none.
pub fn mark_all(
    outline: Outline,
    f: Fill,
    pieces: &[f64],
    wholes: &mut [usize],
    n: usize,
    rows: usize,
) -> usize
    requires { (3 * n ≤ length pieces.now) × (3 * n ≤ length wholes.old) × (n ≤ 10000000) × (rows ≤ 4096) × All Rise (rows_in pieces.now wholes.old n 0 0 rows) }
    ensures { Wrote wholes.old wholes.new n (flat_marks (marked_in (rings_of outline.entry) f.rule f.settings pieces.now wholes.old n rows)) × (result ≡ begun (marked_in (rings_of outline.entry) f.rule f.settings pieces.now wholes.old n rows)) × (result ≤ n) }
{
    let mut h = [0.0f64; HEIGHTS];
    heights(outline, &mut h);
    let area = Area {
        outline,
        rule: f.rule,
        heights: &h,
    };
    mark_rows(area, f.settings, pieces, wholes, n, rows)
}
