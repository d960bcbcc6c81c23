// What other programs link: each function takes any numbers and any lists, and no list may overlap another that is written.
#![tactic(auto)]

mod boxes;
mod machines;
mod numerals;
mod scenarios;
mod sheets;
mod telling;
mod verdicts;
mod worked;

pub use boxes::giachimu_box;
pub use machines::{giachimu_fresh, giachimu_margin, giachimu_run, giachimu_slot};
pub use numerals::{giachimu_number, giachimu_number_up_to};
pub use scenarios::{giachimu_read_scenario, giachimu_write_scenario};
pub use sheets::{giachimu_label, giachimu_labels, giachimu_read, giachimu_write};
pub use verdicts::{giachimu_bounds, giachimu_green, giachimu_verdict};
pub use worked::{giachimu_fixed, giachimu_legal};
