// From marked pieces to needle points: the pieces of each section linked, then counted, then sewn into the output.
//
// The pieces' part of the floats holds y, xa, xb of piece i at 3 * i. Of n pieces the part of the whole numbers holds
// the row of piece i at i, its section and its place there at n + 2 * i, and the links that `link` writes: the next piece
// of its section (n where there is none) at 3 * n + i, the first piece of section s at 4 * n + s.
// kept (6): rule: document 01 lends the slices, and there is no heap
#![tactic(auto)]

mod links;
mod piece;
mod row;
mod section;
mod stitch;
mod thread;

pub use links::link;
use rules::Settings;
pub use section::{count, write};
pub use thread::{Thread, ready};

// What is sewn: the settings and the stagger, the number of the first row met, whether rows are met last first, and how many pieces there are.
#[derive(Clone, Copy)]
pub struct Field {
    pub g: Settings,
    pub stagger: u64,
    pub row: i64,
    pub down: bool,
    pub pieces: usize,
}
