// Worked cases of the other crates, run as tests. The values come from calendars and published documents, or were worked out by hand.
#![tactic(auto)]

#[cfg(test)]
mod calendar;
#[cfg(test)]
mod classes;
#[cfg(test)]
mod clock;
#[cfg(test)]
mod deliveries;
#[cfg(test)]
mod records;
#[cfg(test)]
mod words;
