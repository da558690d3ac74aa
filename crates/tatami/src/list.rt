// The row list's stages behind the gate: pieces, sections, the list.
ghost use Rattle.std.specs.Prelude.{◌≡◌, ◌++◌, ℕ, ◌+◌, ◌*◌, ◌≤◌, ◌<◌, length, take, drop, get_or};
ghost use Rattle.rules.specs.Calls.{list_fits};
ghost use Rattle.edges.specs.Span.{Spanned};
ghost use Rattle.sewing.specs.Sewing.{numbers_in};
ghost use Rattle.tatami.specs.Left.{said_listed, left_list, left_list_by};
ghost use Rattle.tatami.specs.Stages.{Lent, Handed, told, list_of, rows_in, Noted, list_room};

use edges::{Rows, row_number};
use finding::Plan;
use finding::find::Found;
use refusal::Refusal;
use sections::{Fill, mark_all};

// The first n floats, one by one: `copy_from_slice` would have the archive ask for memmove.
fn put_floats(out: &mut [f64], from: &[f64], n: usize)
    requires { (n ≤ length out.old) × (n ≤ length from.now) }
    ensures { out.new ≡ take n from.now ++ drop n out.old }
{
    for i in 0..n {
        out[i] = from[i];
    }
}

// The row numbers of n pieces, by the counts of their rows.
fn put_rows(out: &mut [i64], numbers: &[usize], w: Rows, upward: bool, n: usize)
    requires { (n ≤ length out.old) × (n ≤ length numbers.now) × Spanned w × ((j : ℕ) → j < n → get_or numbers.now j 0 < w.n) }
    ensures { out.new ≡ rows_in w upward n numbers.now ++ drop n out.old }
{
    for (i, number) in numbers[..n].iter().enumerate() {
        out[i] = row_number(w, upward, *number);
    }
}

// The section numbers of n pieces.
fn put_sections(out: &mut [usize], numbers: &[usize], n: usize)
    requires { (n ≤ length out.old) × (3 * n ≤ length numbers.now) }
    ensures { out.new ≡ numbers_in n numbers.now ++ drop n out.old }
{
    for i in 0..n {
        out[i] = numbers[n + 2 * i];
    }
}

// Whether the outputs have room for n pieces.
fn has_room(n: usize, ys: &[f64], rows: &[i64], sections: &[usize]) -> bool
    requires { n ≤ 10000000 }
    ensures { result ≡ list_fits n (length ys.now) (length rows.now) (length sections.now) }
{
    3 * n <= ys.len() && n <= rows.len() && n <= sections.len()
}

// The part behind the edges, listed: how many pieces.
pub fn list_pieces(
    t: Plan,
    n: usize,
    pieces: &[f64],
    numbers: &mut [usize],
    ys: &mut [f64],
    rows: &mut [i64],
    sections: &mut [usize],
) -> Result<u64, Refusal>
    requires { Lent t.outline.corners.now t.outline.ends.now t n pieces.now numbers.old }
    ensures { Noted (list_room n ys.old rows.old sections.old) (list_of t.entry.outline.corners.now t.entry.outline.ends.now t.entry) ys.old ys.new rows.old rows.new sections.old sections.new (said_listed result) }
{
    if !has_room(n, ys, rows, sections) {
        return Err(Refusal::Room);
    }
    let f = Fill {
        rule: t.rule,
        settings: t.g,
    };
    let w = t.rows;
    mark_all(t.outline, f, pieces, numbers, n, w.n);
    put_floats(ys, pieces, 3 * n);
    put_rows(rows, numbers, w, t.upward, n);
    put_sections(sections, numbers, n);
    Ok(n as u64)
}

// What was found, listed: WORK, ROOM or the answer. The working slices are zero on the way out.
pub fn list_found(
    t: Plan,
    found: Result<Found, Refusal>,
    ys: &mut [f64],
    rows: &mut [i64],
    sections: &mut [usize],
    floats: &mut [f64],
    wholes: &mut [usize],
) -> Result<u64, Refusal>
    requires { Handed t.outline.corners.now t.outline.ends.now t floats.old wholes.old found }
    ensures { left_list (said_listed result) ys.new rows.new sections.new floats.new wholes.new ≡ left_list_by (told found (list_fits (length (list_of t.entry.outline.corners.now t.entry.outline.ends.now t.entry)) (length ys.old) (length rows.old) (length sections.old))) (list_of t.entry.outline.corners.now t.entry.outline.ends.now t.entry) ys.old rows.old sections.old floats.old wholes.old }
{
    let r = match found {
        Err(e) => Err(e),
        Ok(f) => list_pieces(
            t,
            f.pieces,
            &floats[6 * f.edges..],
            &mut wholes[4 * f.edges..],
            ys,
            rows,
            sections,
        ),
    };
    floats.fill(0.0);
    wholes.fill(0);
    r
}
