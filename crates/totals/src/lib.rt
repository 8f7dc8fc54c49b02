// Totals: what a report is, and the one table of its totals.
#![tactic(auto)]

pub mod account;
pub mod entries;
pub mod entry;
pub mod exactness;
pub mod moves;
pub mod moving;
pub mod report;
pub mod settling;
pub mod table;
pub mod totals;
