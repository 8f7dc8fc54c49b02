// The rules of the market that need no memory: refusals, the two clocks of a Settlement Day, and the calendar.
#![tactic(auto)]

pub mod calendar;
pub mod clock;
pub mod clock_time;
pub mod date;
pub mod refusal;
