// Sheets A to F as fixed tables.
#![tactic(auto)]

mod fixed;

pub use fixed::fixed_sheet;
