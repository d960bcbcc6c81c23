// A scenario file: its reader, slot by slot and whole, and its writer.
#![tactic(auto)]

mod reader;
mod rows;
mod slot;
mod writer;

pub use reader::{MARK, read_scenario};
pub use slot::{SLOT_REACH, SlotRead, read_slot};
pub use writer::write_scenario;
