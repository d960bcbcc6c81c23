// The state of a box by value: a fresh one, one slot, a run of slots, and the margin of a row.
#![tactic(auto)]

mod lists;
mod margins;
mod runs;
mod slots;
mod start;
mod state;

pub use runs::Ran;
pub use start::fresh;
pub use state::State;
