// What a call on a day is judged by: when it is turned down, and by which number.
#![tactic(auto)]

mod amending;
pub mod call;
pub mod case;
mod delivering;
mod first;
pub mod judge;
mod lowest;
mod places;
mod revising;
pub mod revision;
pub mod sizes;
pub mod sources;
pub mod state;
pub mod tables;
