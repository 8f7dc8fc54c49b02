// A report with its totals.
ghost use Rattle.std.specs.Prelude.{◌≡◌, ◌*◌, length, Decides};

use crate::report::Report;

// A report, and its totals in amounts that are lent: one for each period and place, those of period 1 first.
// The number of periods is the day's and stays a parameter: an account with a number of its own could differ from its day.
#[derive(Drop)]
pub struct Account<'a, R, M> {
    pub report: &'a R,
    pub totals: &'a mut [M],
}

impl<'a, R, M> Account<'a, R, M> {
    // Made of what is lent. A caller whose report itself holds loans makes its account so: by the fields it is beyond the check.
    pub fn new(report: &'a R, totals: &'a mut [M]) -> Account<'a, R, M>
        ensures { (result.report ≡ report.entry) × (result.totals ≡ totals.entry) }
    {
        Account { report, totals }
    }
}

impl<'a, R: Report> Account<'a, R, R::Amount> {
    // Whether there is one amount for each period and place.
    pub fn fits(&self, periods: u8) -> bool
        ensures { Decides result (length self.now.totals.now ≡ periods * (R.rules self.now.report.now).places) }
    {
        self.totals.len() == periods as usize * self.report.place_count()
    }
}
