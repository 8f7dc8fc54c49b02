// Meters: their records, the classes of their readings, and which reading is used.
#![tactic(auto)]

pub mod class;
pub mod making;
pub mod meter;
pub mod row;
pub mod used;
