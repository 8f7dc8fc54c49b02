// The qualities of settlement data.
#![tactic(auto)]

pub mod quality;
