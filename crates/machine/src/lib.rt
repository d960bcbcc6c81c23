// The slot machine on lent lists: the fresh state, one slot, a run of slots, and the margin of a row.
#![tactic(auto)]

mod inplace;
mod margins;
mod places;
mod sheets;
mod start;

pub use inplace::{check_run_in, check_slot_in, run_on, slot_on};
pub use margins::margin_on;
pub use places::{Done, RECORD_WIDE, STATE_LONG};
pub use start::fresh_on;
