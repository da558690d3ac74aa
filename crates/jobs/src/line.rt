// The lines that are printed, each put into a lent slice.
ghost use Rattle.std.specs.Prelude.{◌≡◌, [], ◌∷◌, ◌++◌, ◌+◌, ◌≤◌, ◌<◌, length};
ghost use Rattle.seqs.specs.Slices.{Put};
ghost use Rattle.jobs.specs.Text.{glyph as Text·glyph, digits, places as Text·places, decimal, hex, head_line, point_line};

fn glyph(d: u64) -> u8
    requires { d < 16 }
    ensures { result ≡ Text·glyph d }
{
    if d < 10 {
        return 48 + d as u8;
    }
    87 + d as u8
}

// How many decimal digits n has.
fn places(n: u64) -> usize
    ensures { (result ≡ Text·places 19 n) × (result ≤ 20) }
{
    let mut rest = n;
    for k in 1..20 {
        if rest < 10 {
            return k;
        }
        rest /= 10;
    }
    20
}

// kept (6): no plainer: `Put` tells what is put of the whole list, and each line goes on at the place where the one before it ends
// The last k digits of n from a place on, found from the back.
fn put_digits(n: u64, base: u64, k: usize, out: &mut [u8], at: usize)
    requires { (1 < base) × (base ≤ 16) × (at + k ≤ length out.old) }
    ensures { Put out.old out.new at (digits base k n) }
{
    let mut rest = n;
    for i in (0..k).rev() {
        out[at + i] = glyph(rest % base);
        rest /= base;
    }
}

// A decimal number from a place on, and a byte behind it; answers the place behind both.
fn put_decimal(n: u64, last: u8, out: &mut [u8], at: usize) -> usize
    requires { at + 21 ≤ length out.old }
    ensures put { Put out.old out.new at (decimal n ++ last ∷ []) }
    ensures value { (result ≡ at + length (decimal n ++ last ∷ [])) × (result ≤ at + 21) }
{
    let k = places(n);
    put_digits(n, 10, k, out, at);
    out[at + k] = last;
    at + k + 1
}

// The same of a float's 16 hex digits.
fn put_hex(x: f64, last: u8, out: &mut [u8], at: usize) -> usize
    requires { at + 17 ≤ length out.old }
    ensures put { Put out.old out.new at (hex x ++ last ∷ []) }
    ensures value { result ≡ at + 17 }
{
    put_digits(leaves::to_bits(x), 16, 16, out, at);
    out[at + 16] = last;
    at + 17
}

// "answer sections points" to the front; answers the line's length.
pub fn put_head(answer: u64, sections: u64, points: u64, out: &mut [u8]) -> usize
    requires { 63 ≤ length out.old }
    ensures put { Put out.old out.new 0 (head_line answer sections points) }
    ensures value { (result ≡ 0 + length (head_line answer sections points)) × (result ≤ 63) }
{
    let a = put_decimal(answer, b' ', out, 0);
    let b = put_decimal(sections, b' ', out, a);
    put_decimal(points, b'\n', out, b)
}

// "section x y" from a place on; answers the place behind it.
pub fn put_point(section: u64, x: f64, y: f64, out: &mut [u8], at: usize) -> usize
    requires { at + 55 ≤ length out.old }
    ensures put { Put out.old out.new at (point_line section x y) }
    ensures value { (result ≡ at + length (point_line section x y)) × (result ≤ at + 55) }
{
    let a = put_decimal(section, b' ', out, at);
    let b = put_hex(x, b' ', out, a);
    put_hex(y, b'\n', out, b)
}
