// A store of one UTC date in lent records.
#![tactic(auto)]

pub mod record_store;
