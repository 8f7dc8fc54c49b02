// Worked cases of the reports and the totals, run as tests.
#![tactic(auto)]

#[cfg(test)]
mod figures;
#[cfg(test)]
mod meter;
#[cfg(test)]
mod places;
#[cfg(test)]
mod tables;
