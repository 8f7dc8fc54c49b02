// What the clock on the wall shows at the end of a Settlement Period.
ghost use Rattle.std.specs.Prelude.{◌≡◌};
ghost use Rattle.market.specs.ClockTime.{zone_at, ahead_of, EndsAt, FromMidnight};

use crate::clock::{DayKind, SettlementPeriod, UtcDate, UtcPeriod, to_utc};
use crate::refusal::Refusal;

// The time that clocks keep: Greenwich Mean Time, which is UTC, or British Summer Time, an hour ahead of it.
#[derive(Clone, Copy, Debug, PartialEq, Eq)]
pub enum Zone {
    Gmt,
    Bst,
}

impl Zone {
    // By how many minutes the clock is ahead of UTC.
    fn ahead(self) -> u16
        ensures { result ≡ ahead_of self }
    {
        match self {
            Zone::Gmt => 0,
            Zone::Bst => 60,
        }
    }
}

// A time of day, 00:00 to 23:59, by the clock in force.
#[derive(Clone, Copy, Debug, PartialEq, Eq)]
pub struct ClockTime {
    pub hour: u8,
    pub minute: u8,
    pub zone: Zone,
}

// The time that clocks keep in a UTC period of the day: on a change day they change at 01:00 UTC.
fn zone_at(kind: DayKind, date: UtcDate, period: UtcPeriod) -> Zone
    ensures { result ≡ zone_at kind date period.0 }
{
    let first_hour = period.0 <= 2;
    match (kind, date) {
        (DayKind::Winter, _) => Zone::Gmt,
        (DayKind::Summer, _) => Zone::Bst,
        (DayKind::SpringChange, _) => { if first_hour { Zone::Gmt } else { Zone::Bst } }
        (DayKind::AutumnChange, UtcDate::DateBefore) => Zone::Bst,
        (DayKind::AutumnChange, UtcDate::TheDate) => {
            if first_hour { Zone::Bst } else { Zone::Gmt }
        }
    }
}

// The clock time at which a Settlement Period ends, by the clock in force during it. The last one ends at 00:00.
pub fn ends_at(kind: DayKind, period: SettlementPeriod) -> Result<ClockTime, Refusal>
    ensures value { EndsAt kind period.0 result }
    ensures law { FromMidnight kind period.0 result }
{
    let (date, utc) = to_utc(kind, period)?;
    let zone = zone_at(kind, date, utc);
    let minutes = (30 * u16::from(utc.0) + zone.ahead()) % 1440;
    Ok(ClockTime {
        hour: (minutes / 60) as u8,
        minute: (minutes % 60) as u8,
        zone,
    })
}
