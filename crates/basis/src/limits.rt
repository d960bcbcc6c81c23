// The limits of a sheet, as specs/Limits.antt has them.

// Groups of a number.
pub const MOST_GROUPS: u64 = 3;

// Processors of a box.
pub const MOST_PROCESSORS: u64 = 64;

// Rows of a sheet.
pub const MOST_ROWS: usize = 32;

// Bytes of a label.
pub const LONGEST_LABEL: u64 = 16;

// Slots of a separation.
pub const MOST_SEPARATION: u64 = 1_000_000;
