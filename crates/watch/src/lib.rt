// The text of a run: a line for each slot, the last line, and the line of a refused file.
#![tactic(auto)]

mod codes;
mod ends;
mod play;
mod room;

pub use ends::{File, write_end, write_refused};
pub use play::{Played, play_slot};
pub use room::{LINE_SIZE, line_buffer};
