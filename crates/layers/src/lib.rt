// Stores that are laid over other stores.
#![tactic(auto)]

pub mod joined;
pub mod window;
