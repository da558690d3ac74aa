// Document 01's calls of the geometry, over the cores of `geom`: checks in the table's order, then the value.
#![tactic(auto)]

pub mod checked;
pub mod checked_line;
