// Text in a lent buffer: bytes, and numbers in decimal.
#![tactic(auto)]

mod writing;

pub use writing::{put, put_bytes, put_number};
