// A sheet's values, by their places in its bytes.
ghost use Rattle.std.specs.Prelude.{◌≡◌, ◌+◌, ◌≤◌, length, drop};
ghost use Rattle.book.specs.Book.{values_of, good_values};

use jobs::number::{float_at, number_at};

// A cloth's settings.
#[derive(Clone, Copy)]
pub struct Values {
    pub spacing: f64,
    pub len: f64,
    pub inset: f64,
    pub pull: f64,
    pub stagger: u64,
}

// kept (6): no plainer: places are told of the whole book, as in walk
// Those of the version 1 sheet at a place.
pub fn values_at(s: &[u8], at: usize) -> Values
    requires { at + 41 ≤ length s.now }
    ensures { result ≡ values_of (drop at s.now) }
{
    let spacing = float_at(s, at + 5);
    let len = float_at(s, at + 13);
    let inset = float_at(s, at + 21);
    let pull = float_at(s, at + 29);
    let stagger = number_at(s, at + 37, 4);
    Values {
        spacing,
        len,
        inset,
        pull,
        stagger,
    }
}

#[tactic(auto, unfolding(crate::specs::Book::good_values))]
pub fn good_values(v: Values) -> bool
    ensures { result ≡ good_values v }
{
    limits::good_spacing(v.spacing)
        && limits::good_len(v.len)
        && limits::good_inset(v.inset)
        && limits::good_inset(v.pull)
        && limits::good_stagger(v.stagger)
}
