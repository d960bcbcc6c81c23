// The state aboard: lent to one slot that changes it in place, and the box's own loop, which lends the state that it owns.
#![tactic(auto)]

mod lent;

pub use lent::{box_run, slot_in};
