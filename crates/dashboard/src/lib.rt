// The exact text of a verdict and of the reference, and the buffers for it.
#![tactic(auto)]

mod board;
mod labels;
mod line;
mod report;
mod room;

pub use report::{write_reference, write_verdict};
pub use room::{TEXT_SIZE, input_buffer, text_buffer};
