// Dates, and the days on which the clocks change.
ghost use Rattle.std.specs.Prelude.{◌≡◌, Decides, ◌<◌, ◌≤◌};
ghost use Rattle.market.specs.Calendar.{leap, days_in, Exists, LastSundays, kind_of, KindOn};
ghost use Rattle.market.specs.Dates.{Dated, DatedBefore, count_of, OneDateADay, ChangesOn};

use crate::clock::DayKind;
use crate::date::Date;
use crate::refusal::Refusal;
use std::cmp::Ordering;

// The change days: for each year from 2024 to 2055 the last Sunday of March and the last Sunday of October.
const CHANGE_DAYS: [(u8, u8); 32] = [
    (31, 27), // 2024
    (30, 26), // 2025
    (29, 25), // 2026
    (28, 31), // 2027
    (26, 29), // 2028
    (25, 28), // 2029
    (31, 27), // 2030
    (30, 26), // 2031
    (28, 31), // 2032
    (27, 30), // 2033
    (26, 29), // 2034
    (25, 28), // 2035
    (30, 26), // 2036
    (29, 25), // 2037
    (28, 31), // 2038
    (27, 30), // 2039
    (25, 28), // 2040
    (31, 27), // 2041
    (30, 26), // 2042
    (29, 25), // 2043
    (27, 30), // 2044
    (26, 29), // 2045
    (25, 28), // 2046
    (31, 27), // 2047
    (29, 25), // 2048
    (28, 31), // 2049
    (27, 30), // 2050
    (26, 29), // 2051
    (31, 27), // 2052
    (30, 26), // 2053
    (29, 25), // 2054
    (28, 31), // 2055
];

// The table, each entry of which is the last Sunday of its month.
#[tactic(auto, using(crate::proofs::Tables::last_sundays))]
fn change_days() -> [(u8, u8); 32]
    ensures { LastSundays result }
{
    CHANGE_DAYS
}

// Whether the year has a 29 February.
fn is_leap(year: u16) -> bool
    ensures { result ≡ leap year }
{
    year % 4 == 0 && (year % 100 != 0 || year % 400 == 0)
}

// How many days a month has.
fn days_in(year: u16, month: u8) -> u8
    ensures { result ≡ days_in year month }
{
    match month {
        2 => { if is_leap(year) { 29 } else { 28 } }
        4 | 6 | 9 | 11 => 30,
        _ => 31,
    }
}

// Whether the calendar has the date, in the years 2024 to 2055.
fn has_date(year: u16, month: u8, day: u8) -> bool
    ensures { Decides result (Exists year month day) }
{
    (2024..=2055).contains(&year)
        && (1..=12).contains(&month)
        && (1..=days_in(year, month)).contains(&day)
}

// The days on which the clocks of one year change.
#[derive(Clone, Copy)]
struct Changes {
    spring: Date,
    autumn: Date,
}

// The change days of a year that the table has.
fn changes_in(year: u16) -> Changes
    requires { (2024 ≤ year) × (year ≤ 2055) }
    ensures spring { ChangesOn year 3 result.spring }
    ensures autumn { ChangesOn year 10 result.autumn }
{
    let table = change_days();
    let (march, october) = table[usize::from(year - 2024)];
    let spring = Date {
        year,
        month: 3,
        day: march,
    };
    let autumn = Date {
        year,
        month: 10,
        day: october,
    };
    Changes { spring, autumn }
}

impl Date {
    // The date of these numbers, if there is one in the years 2024 to 2055.
    pub fn new(year: u16, month: u8, day: u8) -> Result<Date, Refusal>
        ensures { Dated year month day result }
    {
        if !has_date(year, month, day) {
            return Err(Refusal::NoSuchDate);
        }
        Ok(Date { year, month, day })
    }

    // The date before, if it lies in the years.
    #[tactic(auto, using(crate::proofs::Dates::day_back, crate::proofs::Dates::month_back, crate::proofs::Dates::year_back, crate::proofs::Dates::one_date_a_day))]
    pub fn before(self) -> Result<Date, Refusal>
        ensures value { DatedBefore self result }
        ensures one { OneDateADay }
    {
        if self.day > 1 {
            return Date::new(self.year, self.month, self.day - 1);
        }
        if self.month > 1 {
            let month = self.month - 1;
            return Date::new(self.year, month, days_in(self.year, month));
        }
        Date::new(self.year - 1, 12, 31)
    }

    // The kind of Settlement Day that the date is.
    pub fn kind(self) -> DayKind
        ensures value { result ≡ kind_of self.year self.month self.day }
        ensures law { KindOn self.year self.month self.day result }
    {
        let changes = changes_in(self.year);
        match (self.cmp(&changes.spring), self.cmp(&changes.autumn)) {
            (Ordering::Equal, _) => DayKind::SpringChange,
            (_, Ordering::Equal) => DayKind::AutumnChange,
            (Ordering::Greater, Ordering::Less) => DayKind::Summer,
            _ => DayKind::Winter,
        }
    }
}
