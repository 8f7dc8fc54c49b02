// Totals that follow a change of one entry.
ghost use Rattle.totals.specs.Account.{SameAccount};
ghost use Rattle.totals.specs.Moving.{Moved};

use crate::account::Account;
use crate::entry::Entry;
use crate::moves::replace_entry;
use crate::report::Report;
use crate::totals::Totals;
use market::refusal::Refusal;

impl<'a, R: Report> Account<'a, R, R::Amount> {
    // Puts one entry in the place of another, if there is one amount for each period and place; else it gets 1.
    pub fn replace(
        &mut self,
        periods: u8,
        period: u8,
        old: Entry,
        new: Entry,
    ) -> Result<(), Refusal>
        ensures moved { Moved R.Amount.algebra (R.rules self.old.report.now) periods period old new self.old.totals.now self.new.totals.now result }
        ensures same { SameAccount self.old self.new }
    {
        if !self.fits(periods) {
            return Err(Refusal::Sizes);
        }
        // Made here and in `settle`: tried as a method that lends the table out, which leaves nothing proved of the totals afterwards.
        let mut table = Totals {
            places: self.report.place_count(),
            cells: self.totals,
            periods,
        };
        replace_entry(&mut table, self.report, period, old, new);
        Ok(())
    }
}
