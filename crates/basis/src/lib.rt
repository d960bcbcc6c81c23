// What every crate shares: the limits of a sheet, refusals, the mark that a file begins with, and what is written into a lent buffer.
#![tactic(auto)]

mod limits;
mod mark;
mod refusal;
mod stored;

pub use limits::{LONGEST_LABEL, MOST_GROUPS, MOST_PROCESSORS, MOST_ROWS, MOST_SEPARATION};
pub use mark::begins_with;
pub use refusal::Refusal;
pub use stored::put_bytes;
