// Readings: what a meter used in a period, and which of two readings stands.
#![tactic(auto)]

pub mod delivery;
pub mod order;
pub mod reading;
