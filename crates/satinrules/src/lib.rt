// What a satin column is, as definitions: document 01's rules and the source's satin.rs in specs/ (Arc, Pairs, Column, Calls), and what is
// proved of them in the files beside them. Here are the records that travel by value, and the maker of the settings.
#![tactic(auto, unfolding(crate::specs::Settings::good_satin, crate::specs::Settings::good_split_set, crate::specs::Settings::split_of, crate::specs::Settings::made_answer))]

ghost use Rattle.std.specs.Prelude.{◌≡◌};
ghost use Rattle.refusal.specs.Refusal.{said};
ghost use Rattle.satinrules.specs.Settings.{good_satin, split_of, made_answer};

use geom::P;
use limits::{good_inset, good_len, good_spacing, good_split, good_underlay};
use refusal::{Refusal, unless};

// Matched points on both rails.
#[derive(Clone, Copy)]
pub struct Pair {
    pub a: P,
    pub b: P,
}

// How the top stitches cross the column.
#[derive(Clone, Copy)]
pub enum Style {
    Plain,
    SStitch,
    Zigzag,
}

// The satin settings: one record, passed by value. The underlay's bits are 1 centre, 2 contour, 4 zigzag; `split` is the longest top stitch,
// in units, or none is too long.
// kept (1): `good_satin` answers about every number of bits, and says no above 7, which three bools couldn't.
#[derive(Clone, Copy)]
pub struct Satin {
    pub spacing: f64,
    pub pull: f64,
    pub underlay: u64,
    pub run_len: f64,
    pub short_stitches: bool,
    pub split: Option<f64>,
    pub style: Style,
}

// Whether each setting is in its range.
pub fn good_satin(g: Satin) -> bool
    ensures { result ≡ good_satin g }
{
    good_spacing(g.spacing)
        && good_inset(g.pull)
        && good_underlay(g.underlay)
        && good_len(g.run_len)
        && g.split.is_none_or(good_split)
}

// The split that a number says: 0 of either sign is none.
pub fn split_of(x: f64) -> Option<f64>
    ensures { result ≡ split_of x }
{
    if x == 0.0 { None } else { Some(x) }
}

impl Satin {
    // Rail points closer than this count as crowded.
    pub const SHORT_DIST: f64 = 2.5;
    // How far crowded alternate stitches are pulled in, as a fraction of the width.
    pub const SHORT_INSET: f64 = 0.15;
    // Underlay sits this far inside the rails, at most a quarter of the width.
    pub const UNDERLAY_INSET: f64 = 4.0;
    // The zigzag underlay's peaks are this far apart.
    pub const ZIGZAG_UNDERLAY_SPACING: f64 = 30.0;

    // The settings, with the split given as a number; or SETTING where one is outside its range.
    pub fn new(
        spacing: f64,
        pull: f64,
        underlay: u64,
        run_len: f64,
        short_stitches: bool,
        split: f64,
        style: Style,
    ) -> Result<Satin, Refusal>
        ensures { said result ≡ made_answer (record { spacing = spacing; pull = pull; underlay = underlay; run_len = run_len; short_stitches = short_stitches; split = split_of split; style = style }) }
    {
        let g = Satin {
            spacing,
            pull,
            underlay,
            run_len,
            short_stitches,
            split: split_of(split),
            style,
        };
        unless(Refusal::Setting, good_satin(g))?;
        Ok(g)
    }
}
