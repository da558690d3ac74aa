// A record read: what its bits say, and when it is turned away.
ghost use Rattle.std.specs.Prelude.{◌≡◌, ◌+◌, ◌*◌, ◌/◌, ◌%◌, ◌<◌, ◌≤◌, length, get_or, eqb};
ghost use Rattle.dst.specs.Said.{added_x, taken_x, added_y, taken_y};
ghost use Rattle.dst_read.specs.Mark.{mark_number};
ghost use Rattle.dst_read.specs.Record.{clashes, bad_third, bad, is_end, mark_of, weighed};

use crate::mark::Mark;

// The three bytes.
#[derive(Clone, Copy)]
pub struct Record {
    pub a: u64,
    pub b: u64,
    pub c: u64,
}

// The bit of weight w.
fn bit(n: u64, w: u64) -> u64
    requires { 0 < w }
    ensures { (result ≡ n / w % 2) × (result ≤ 1) }
{
    n / w % 2
}

// Whether the bits of weight v and w are both set.
fn both(n: u64, v: u64, w: u64) -> bool
    requires { (0 < v) × (0 < w) }
    ensures { result ≡ eqb (n / v % 2 + n / w % 2) 2 }
{
    bit(n, v) + bit(n, w) == 2
}

// Whether a weight of the first or the second byte has both signs.
#[tactic(auto, unfolding(crate::specs::Record::clashes))]
fn clashes(n: u64) -> bool
    ensures { result ≡ clashes n }
{
    both(n, 1, 2) || both(n, 4, 8) || both(n, 16, 32) || both(n, 64, 128)
}

// The same of the third; the fixed bits; bit 6 without bit 7.
#[tactic(auto, unfolding(crate::specs::Record::bad_third))]
fn bad_third(c: u64) -> bool
    ensures { result ≡ bad_third c }
{
    both(c, 4, 8) || both(c, 16, 32) || !both(c, 1, 2) || bit(c, 128) < bit(c, 64)
}

impl Record {
    // Record r of a file.
    pub fn at(bytes: &[u8], r: usize) -> Record
        requires { 3 * r + 3 ≤ length bytes.now }
        ensures { (result.a ≡ get_or bytes.now (3 * r) 0) × (result.b ≡ get_or bytes.now (3 * r + 1) 0) × (result.c ≡ get_or bytes.now (3 * r + 2) 0) }
    {
        Record {
            a: u64::from(bytes[3 * r]),
            b: u64::from(bytes[3 * r + 1]),
            c: u64::from(bytes[3 * r + 2]),
        }
    }

    // Whether it is turned away.
    #[tactic(auto, unfolding(crate::specs::Record::bad))]
    pub fn is_bad(self) -> bool
        ensures { result ≡ bad self.a self.b self.c }
    {
        clashes(self.a) || clashes(self.b) || bad_third(self.c)
    }

    // 00 00 F3.
    #[tactic(auto, unfolding(crate::specs::Record::is_end))]
    pub fn is_end(self) -> bool
        ensures { result ≡ is_end self.a self.b self.c }
    {
        self.a == 0 && self.b == 0 && self.c == 243
    }

    // Bit 7 alone is a jump, both a stop.
    #[tactic(auto, unfolding(crate::specs::Record::mark_of))]
    pub fn mark(self) -> Mark
        ensures { mark_number result ≡ mark_of self.c }
    {
        if bit(self.c, 128) == 0 {
            return Mark::Stitch;
        }
        if bit(self.c, 64) == 0 {
            return Mark::Jump;
        }
        Mark::Stop
    }

    // The weights whose bits are set: 1 and 3 by the bit `lo` of the first two bytes, 9, 27 and 81 by `hi` of all three.
    fn weighed(self, lo: u64, hi: u64) -> u64
        requires { (0 < lo) × (0 < hi) }
        ensures { (result ≡ weighed lo hi self.a self.b self.c) × (result ≤ 121) }
    {
        bit(self.a, lo)
            + 3 * bit(self.b, lo)
            + 9 * bit(self.a, hi)
            + 27 * bit(self.b, hi)
            + 81 * bit(self.c, hi)
    }

    // The weights added to x and taken off it, and so of y.
    pub fn added_x(self) -> u64
        ensures { (result ≡ added_x self.a self.b self.c) × (result ≤ 121) }
    {
        self.weighed(1, 4)
    }

    pub fn taken_x(self) -> u64
        ensures { (result ≡ taken_x self.a self.b self.c) × (result ≤ 121) }
    {
        self.weighed(2, 8)
    }

    pub fn added_y(self) -> u64
        ensures { (result ≡ added_y self.a self.b self.c) × (result ≤ 121) }
    {
        self.weighed(128, 32)
    }

    pub fn taken_y(self) -> u64
        ensures { (result ≡ taken_y self.a self.b self.c) × (result ≤ 121) }
    {
        self.weighed(64, 16)
    }
}
