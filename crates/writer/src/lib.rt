// The writer of a sheet's bytes: first its numbers and labels are checked, then whether the buffer has room, and only then anything is written.
#![tactic(auto)]

mod checking;
mod measuring;
mod writing;

pub use writing::write_sheet;
