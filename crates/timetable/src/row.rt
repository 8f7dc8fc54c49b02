// One line of the table: a Settlement Period by both clocks.
ghost use Rattle.std.specs.Prelude.{Some};
ghost use Rattle.timetable.specs.Row.{UtcDated, Rowed, row_text};

use crate::text::{DateText, TimeText};
use market::clock::{ClockPlace, SettlementPeriod, UtcDate, UtcPeriod, convert};
use market::clock_time::{ClockTime, ends_at};
use market::date::Date;
use market::refusal::Refusal;
use std::fmt;

// A Settlement Period: the clock time at which it ends, and the UTC date and period that it is.
#[derive(Clone, Copy, Debug, PartialEq, Eq)]
pub struct Row {
    pub period: SettlementPeriod,
    pub ends: ClockTime,
    pub date: Date,
    pub utc: UtcPeriod,
}

// The date itself, or the date before.
fn utc_date(day: Date, date: UtcDate) -> Result<Date, Refusal>
    ensures { UtcDated day date result }
{
    match date {
        UtcDate::DateBefore => day.before(),
        UtcDate::TheDate => Ok(day),
    }
}

impl Row {
    // The line of a Settlement Period of the day.
    pub fn new(day: Date, period: SettlementPeriod) -> Result<Row, Refusal>
        ensures { Rowed day period result }
    {
        let kind = day.kind();
        let ends = ends_at(kind, period)?;
        let place = convert(kind, ClockPlace::Settlement(period))?;
        let Some(ClockPlace::Utc(date, utc)) = place else {
            unreachable()
        };
        Ok(Row {
            period,
            ends,
            date: utc_date(day, date)?,
            utc,
        })
    }
}

impl fmt::Display for Row {
    ghost output = { λ r. Some (row_text r) };

    #[tactic(auto, using(crate::proofs::Padded::space_filled))]
    fn fmt<W: fmt::Write>(&self, f: &mut fmt::Formatter<W>) -> fmt::Result {
        let period = self.period.0;
        let ends = TimeText(self.ends);
        let date = DateText(self.date);
        let utc = self.utc.0;
        write!(f, "    {period:2}  {ends}  {date}          {utc:2}")
    }
}
