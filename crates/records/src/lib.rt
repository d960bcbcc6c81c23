// The record of a row: whether it is legal, whether its row may be released, and the five steps of its job in a slot.
#![tactic(auto)]

mod record;
mod release;
mod steps;

pub use record::{Job, RowState, is_legal_record};
pub use release::check_row;
pub use steps::{Aged, Placed};
