// A Settlement Day and its calls.
#![tactic(auto)]

mod acts;
pub mod calls;
mod changes;
pub mod day;
pub mod inputs;
pub mod perform;
pub mod replay;
mod ruling;
