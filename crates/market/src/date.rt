// A date of the calendar, and nothing that is none.
ghost use Rattle.std.specs.Prelude.{◌≡◌, ◌≤◌};
ghost use Rattle.market.specs.Calendar.{days_in};

// A date of the years 2024 to 2055. Every value of this type is a date that exists, and an earlier date is the smaller one.
#[derive(Clone, Copy, Debug, PartialEq, Eq, PartialOrd, Ord)]
pub struct Date {
    pub(crate) year: u16,
    pub(crate) month: u8,
    pub(crate) day: u8,
    ghost years: { (2024 ≤ year) × (year ≤ 2055) },
    ghost months: { (1 ≤ month) × (month ≤ 12) },
    ghost days: { (1 ≤ day) × (day ≤ days_in year month) },
}

impl Date {
    // The year, 2024 to 2055.
    pub fn year(self) -> u16
        ensures { result ≡ self.year }
    {
        self.year
    }

    // The month, 1 to 12.
    pub fn month(self) -> u8
        ensures { result ≡ self.month }
    {
        self.month
    }

    // The day of the month, from 1.
    pub fn day(self) -> u8
        ensures { result ≡ self.day }
    {
        self.day
    }
}
