// The whole table of a day: what kind of day it is, a heading, and a line for each Settlement Period.
ghost use Rattle.std.specs.Prelude.{IfOk, Some, string_bytes};
ghost use Rattle.timetable.specs.Table.{heading_text, Table};

use crate::row::Row;
use crate::text::{DateText, KindText};
use market::clock::{DayKind, SettlementPeriod};
use market::date::Date;
use std::alloc::{AllocError, Global};
use std::fmt;
use std::fmt::Write;

// The two lines above the periods: the date, its kind and its number of periods, and the names of the columns.
#[derive(Clone, Copy)]
struct Heading {
    day: Date,
    kind: DayKind,
}

impl fmt::Display for Heading {
    ghost output = { λ h. Some (heading_text h.day h.kind) };

    fn fmt<W: fmt::Write>(&self, f: &mut fmt::Formatter<W>) -> fmt::Result {
        let date = DateText(self.day);
        let kind = KindText(self.kind);
        let periods = self.kind.periods();
        write!(
            f,
            "{date}  {kind}, {periods} Settlement Periods\nperiod  ends       UTC date    UTC period\n"
        )
    }
}

// The table of a day.
pub fn table(heap: Global, day: Date) -> Result<String, AllocError>
    ensures { IfOk result (λ s. Table day (string_bytes s)) }
{
    let kind = day.kind();
    let heading = Heading { day, kind };
    let mut text = format!(in heap; "{heading}")?;
    for period in 1..=kind.periods() {
        let row = Row::new(day, SettlementPeriod(period)).unwrap();
        writeln!(text, "{row}")?;
    }
    Ok(text)
}
