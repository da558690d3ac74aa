// The bound of a file that comes back: request [5].

// How many records may stand before the end.
pub const MOST_RECORDS: usize = 1000000;
