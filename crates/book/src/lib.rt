// The machines' sheet book: each cloth's settings, kept as bytes in one lent list. Request [13].
#![tactic(auto)]

mod fetching;
mod framing;
mod keeping;
mod values;
mod walk;
mod writing;

pub use fetching::fetch;
pub use keeping::{remove, store};
pub use values::Values;
