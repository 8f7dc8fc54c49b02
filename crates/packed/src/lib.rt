// A store of one UTC date in lent bytes.
#![tactic(auto)]

pub mod packed_store;
mod place;
