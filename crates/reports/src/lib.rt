// The reports that every day is settled by: BM Units and DUoS.
#![tactic(auto)]

pub mod bm_unit;
pub mod duos;
pub mod places;
