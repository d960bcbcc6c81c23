// The bound of each row of a sheet.
#![tactic(auto)]

mod bytes;
mod judge;
mod pace;
mod quantity;
mod results;
mod row;
mod search;
mod share;
mod start;
mod stretch;
mod sum;
mod test;
mod turn;

pub use bytes::judge_bytes;
pub use results::{RESULTS_LONG, Results, RowResult, bounds, bounds_on};
