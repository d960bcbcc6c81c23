// Numbers in groups of seven bits, the lowest first.
#![tactic(auto)]

mod number;
mod writing;

pub use number::{read_in_range, read_number, read_up_to};
pub use writing::{number_length, write_number};
