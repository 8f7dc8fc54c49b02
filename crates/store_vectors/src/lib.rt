// Worked cases of the stores, run as tests.
#![tactic(auto)]

#[cfg(test)]
mod layered;
#[cfg(test)]
mod memory;
