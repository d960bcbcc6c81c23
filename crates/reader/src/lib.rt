// The reader of a sheet's bytes: left to right, once, and the first fault decides.
#![tactic(auto)]

mod head;
mod into;
mod labels;
mod row;
mod rows;
mod whole;

pub use head::MARK;
pub use into::{LABELS_LONG, read_into};
pub use labels::{Parts, label, label_part, label_parts};
pub use row::Part;
pub use whole::read;
