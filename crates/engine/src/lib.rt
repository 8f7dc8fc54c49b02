// What counts for each meter in each period of a day, by its record, what is stored and the tables, and totals that follow a change of them.
#![tactic(auto)]

pub mod amending;
pub mod entry;
pub mod meter_entries;
pub mod revising;
mod revision;
