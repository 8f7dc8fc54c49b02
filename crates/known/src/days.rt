// Known values of the clock.
ghost use Rattle.std.specs.Prelude.{Decides};
ghost use Rattle.known.specs.Values.{HasPeriods, StartsBefore};

use market::clock::{ClockPlace, SettlementPeriod, UtcDate, UtcPeriod, convert};
use market::date::Date;

// Whether a date has so many Settlement Periods.
pub fn has_periods(year: u16, month: u8, day: u8, periods: u8) -> bool
    ensures { Decides result (HasPeriods year month day periods) }
{
    Date::new(year, month, day).is_ok_and(|date| date.kind().periods() == periods)
}

// Whether the first Settlement Period of a date is that UTC period of the date before.
pub fn starts_before(year: u16, month: u8, day: u8, number: u8) -> bool
    ensures { Decides result (StartsBefore year month day number) }
{
    let first = ClockPlace::Settlement(SettlementPeriod(1));
    let wanted = ClockPlace::Utc(UtcDate::DateBefore, UtcPeriod(number));
    Date::new(year, month, day).is_ok_and(|date| convert(date.kind(), first) == Ok(Some(wanted)))
}
