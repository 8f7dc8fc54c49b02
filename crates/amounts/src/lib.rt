// Kinds of amount: what reports add up and take away again.
#![tactic(auto)]

pub mod amount;
pub mod bm_unit;
pub mod bm_unit_amount;
pub mod duos;
pub mod duos_amount;
pub mod sum;
