// Worked cases of a day, run as tests.
#![tactic(auto)]

#[cfg(test)]
mod calls;
#[cfg(test)]
mod joined;
