// A sheet: its rows, the check of its ranges, and the list of plain numbers that hands it over: processors, rows n, and then of each row threads, separation, deadline and budget.
#![tactic(auto)]

mod fields;
mod legal;
mod reading;
mod row;
mod writing;

pub use fields::{count, processors, row_at};
pub use legal::is_legal;
pub use reading::{number_at, sheet_in};
pub use row::{NO_ROW, Row, Sheet};
pub use writing::{SHEET_LONG, clear_from, put_sheet};
