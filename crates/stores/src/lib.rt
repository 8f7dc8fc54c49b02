// Where readings lie: what a store is, and the places of a UTC date.
#![tactic(auto)]

pub mod date;
pub mod date_store;
pub mod layout;
pub mod period;
pub mod store;
