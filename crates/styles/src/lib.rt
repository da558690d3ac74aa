// What a satin column's styles make of the top's path: long stitches split, and stitches bent to an s. For a path of any numbers.
#![tactic(auto)]

pub mod bent;
pub mod split;
