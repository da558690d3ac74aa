// What a fill is, as definitions: document 01's rules and the source's fill.rs in specs/Fill.antt, and what is proved of
// them in the files beside it. Here are the records that travel by value.

// The fill's settings: one record of numbers. Stagger, rule and direction stand beside it.
#![tactic(auto)]

#[derive(Clone, Copy)]
pub struct Settings {
    pub spacing: f64,
    pub len: f64,
    pub inset: f64,
    pub pull: f64,
    pub cosine: f64,
    pub sine: f64,
}

// A kept edge, from its top (x0, y0) down to y1. It falls where the outline runs down along it: the source's dir 1.
#[derive(Clone, Copy)]
pub struct Edge {
    pub y0: f64,
    pub y1: f64,
    pub x0: f64,
    pub dxdy: f64,
    pub falls: bool,
}

// A piece of row k: the source's Row.
#[derive(Clone, Copy)]
pub struct Piece {
    pub k: i64,
    pub y: f64,
    pub xa: f64,
    pub xb: f64,
}

// An entry of the row list: a kept piece, its section's number, and its place in that section, from 0.
#[derive(Clone, Copy)]
pub struct Entry {
    pub piece: Piece,
    pub section: u64,
    pub nth: u64,
}
