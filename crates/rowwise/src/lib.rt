// A fill's pieces with no edge table: each row is worked out from the rings alone, one crossing after the other, and nothing is kept but the pieces.
#![tactic(auto)]

pub mod crossing;
pub mod find;
pub mod piece;
pub mod rows;
