// The periods of a Settlement Day as a table to read.
#![tactic(auto)]

pub mod row;
pub mod table;
mod text;
pub mod word;
