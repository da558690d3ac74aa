// The pieces of a row, one at a time by value, and put behind the table.
ghost use Rattle.std.specs.Prelude.{◌≡◌, not, cond, ◌&&◌, ◌+◌, ◌≤◌, ◌<◌, pos, negsuc, nat_abs, length, replicate};
ghost use Rattle.std.specs.Iterator.{YieldsFirst, item_count};
ghost use Rattle.seqs.specs.Records.{Added};
ghost use Rattle.seqs.specs.Slices.{Wrote};
ghost use Rattle.outlines.specs.Inside.{inside};
ghost use Rattle.rules.specs.Fill.{same_x};
ghost use Rattle.sweep.specs.Swept.{Crossed, joined_to, cut_ends, wide_span, passed, cuts, Stepped, span_block, block_place};

use edges::Table;
use edges::table::put_block;
use leaves::to_bits;
use outlines::FillRule;
use std::marker::Model;

// What a row asks of its pieces: how much each end gives way, and the least width.
#[derive(Clone, Copy)]
pub struct Cut {
    pub rule: FillRule,
    pub y: f64,
    pub shrink: f64,
    pub least: f64,
}

#[derive(Clone, Copy)]
pub struct Span {
    pub xa: f64,
    pub xb: f64,
}

// A row's crossings of equal x, taken as one: their directions added, and where the next one stands.
#[derive(Clone, Copy)]
pub struct Crossing {
    pub x: f64,
    pub dir: i64,
    pub next: usize,
}

// Where a scan of a row's places stands: crossings passed, the winding number, and where the span began.
#[derive(Clone, Copy, Default)]
pub struct Scan {
    pub at: usize,
    pub w: i64,
    pub start: f64,
}

pub fn way(falls: bool) -> i64
    ensures { (result ≡ cond falls (pos 1) (negsuc 0)) × (nat_abs result ≤ 1) }
{
    if falls { 1 } else { -1 }
}

// Whether two crossings have equal x.
fn same_x(x: f64, z: f64) -> bool
    ensures { result ≡ same_x x z }
{
    to_bits(x) == to_bits(z)
}

// The next crossing has the same x: its direction is added.
pub fn join(c: Crossing, falls: bool) -> Crossing
    requires { (nat_abs c.dir ≤ 100000) × (c.next ≤ 100000) }
    ensures { (result ≡ joined_to c falls) × (nat_abs result.dir ≤ nat_abs c.dir + 1) }
{
    Crossing {
        x: c.x,
        dir: c.dir + way(falls),
        next: c.next + 1,
    }
}

// The crossings of a row at y that have the x of the one at `at`.
fn crossing_at(table: &Table, places: &[usize], y: f64, at: usize) -> Crossing
    requires { (length places.now ≤ 100000) × (at < length places.now) }
    ensures { Crossed table.now y places.now at result }
{
    let t = table.edge(places[at]);
    let mut c = Crossing {
        x: t.x0 + (y - t.y0) * t.dxdy,
        dir: way(t.falls),
        next: at + 1,
    };
    for i in &places[at + 1..] {
        let u = table.edge(*i);
        if !same_x(c.x, u.x0 + (y - u.y0) * u.dxdy) {
            return c;
        }
        c = join(c, u.falls);
    }
    c
}

// Whether the winding goes from outside to inside.
fn begins(rule: FillRule, w: i64, v: i64) -> bool
    ensures { result ≡ (not (inside rule w) && inside rule v) }
{
    !rule.inside(w) && rule.inside(v)
}

// The scan one crossing on.
pub fn pass(c: Cut, s: Scan, x: Crossing) -> Scan
    requires { (nat_abs s.w ≤ s.at) × (nat_abs x.dir + s.at ≤ x.next) × (x.next ≤ 100000) }
    ensures { (result ≡ passed c s x) × (nat_abs result.w ≤ result.at) }
{
    let rule = c.rule;
    let v = s.w + x.dir;
    Scan {
        at: x.next,
        w: v,
        start: if begins(rule, s.w, v) { x.x } else { s.start },
    }
}

pub fn cut_ends(c: Cut, a: f64, b: f64) -> Span
    ensures { result ≡ cut_ends c (a, b) }
{
    Span {
        xa: a + c.shrink,
        xb: b - c.shrink,
    }
}

// Whether a kept piece ends on the way from s to t.
pub fn closes(c: Cut, s: Scan, t: Scan, p: Span) -> bool
    requires { (nat_abs s.w ≤ 1000000) × (nat_abs t.w ≤ 1000000) }
    ensures { result ≡ ((inside c.rule s.w && not (inside c.rule t.w)) && wide_span c p) }
{
    let rule = c.rule;
    rule.inside(s.w) && !rule.inside(t.w) && c.least <= p.xb - p.xa
}

// The next kept piece of a row whose crossings, left to right, are places, and the scan behind it.
fn next_piece(table: &Table, places: &[usize], c: Cut, from: Scan) -> Option<(Span, Scan)>
    requires { (length places.now ≤ 100000) × (nat_abs from.w ≤ from.at) × (from.at ≤ length places.now) }
    ensures { Stepped c table.now places.now from result }
{
    let mut s = from;
    // kept (3): no plainer: a turn passes as many places as share an x
    while s.at < places.len() {
        let x = crossing_at(table, places, c.y, s.at);
        let next = pass(c, s, x);
        let p = cut_ends(c, next.start, x.x);
        if closes(c, s, next, p) {
            return Some((p, next));
        }
        s = next;
    }
    None
}

// A row's pieces, left to right: contracts see the list of those that are left.
#[derive(Drop)]
pub struct Pieces<'a> {
    table: &'a Table<'a>,
    places: &'a [usize],
    cut: Cut,
    scan: Scan,
}

impl<'a> Model for Pieces<'a> {
    ghost use Rattle.std.specs.Prelude.{List};
    ghost use Rattle.sweep.specs.declared.piece.Span.{Span};

    ghost Value = { List Span };

    ghost use Rattle.sweep.specs.Pieces.{left, Scanning};

    ghost view = { left };

    ghost invariant = { Scanning };
}

impl<'a> Pieces<'a> {
    // Of a row whose crossings, left to right, are places.
    pub fn new(table: &'a Table<'a>, places: &'a [usize], cut: Cut) -> Self
        requires { length places.now ≤ 100000 }
        ensures { result ≡ cuts cut table.now places.now }
    {
        Pieces {
            table,
            places,
            cut,
            scan: Scan::default(),
        }
    }
}

impl<'a> Iterator for Pieces<'a> {
    type Item = Span;

    ghost next_gives = { YieldsFirst (λ s. s) };

    ghost remaining = { item_count (λ s. s) };

    fn next(&mut self) -> Option<Span> {
        let (p, t) = next_piece(self.table, self.places, self.cut, self.scan)?;
        self.scan = t;
        Some(p)
    }
}

// A piece at k, if there is room.
pub fn put_piece(floats: &mut [f64], k: usize, y: f64, p: Span)
    requires { k ≤ 1000000000 }
    ensures { Wrote floats.old floats.new k (span_block y p) }
{
    put_block(floats, k, [y, p.xa, p.xb]);
}

// A row's pieces from piece i on, if there is room; how many there are then.
pub fn put_pieces(table: &Table, places: &[usize], c: Cut, floats: &mut [f64], i: usize) -> usize
    requires { (i ≤ 10000000) × (length places.now ≤ 100000) }
    ensures { Added block_place (span_block c.y) floats.old floats.new i result (cuts c table.now places.now) }
{
    let mut n = i;
    for p in Pieces::new(table, places, c) {
        put_piece(floats, 3 * n, c.y, p);
        n += 1;
    }
    n
}

// r for each of m pieces, from k on, if there is room.
pub fn put_rows(l: &mut [usize], k: usize, m: usize, r: usize)
    requires { k + m ≤ 1000000000 }
    ensures { Wrote l.old l.new k (replicate m r) }
{
    if k + m <= l.len() {
        l[k..k + m].fill(r);
    }
}
