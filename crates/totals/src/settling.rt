// Totals worked out from nothing.
ghost use Rattle.totals.specs.Account.{SameAccount};
ghost use Rattle.totals.specs.Settling.{Added, Raised, Filled, Settled};

use crate::account::Account;
use crate::entries::Entries;
use crate::moves::add_entry;
use crate::report::Report;
use crate::totals::Totals;
use market::refusal::Refusal;

// Adds what the entries of all meters bring to the totals of a period.
fn add_period<E: Entries, R: Report>(
    table: &mut Totals<'_, R::Amount>,
    report: &R,
    meters: &E,
    period: u8,
)
    ensures { Added R.Amount.algebra (R.rules report.now) (E.entries meters.now) period (E.count meters.now) table.old table.new }
{
    // by number: the entries of meters are an interface, and no slice to go over
    for index in 0..meters.meter_count() {
        add_entry(table, report, period, meters.entry_at(index, period));
    }
}

// Adds what the entries of all meters bring to every total of a table.
fn add_periods<E: Entries, R: Report>(table: &mut Totals<'_, R::Amount>, report: &R, meters: &E)
    ensures { Raised R.Amount.algebra (R.rules report.now) (E.entries meters.now) (E.count meters.now) table.old table.new }
{
    for period in 1..=table.periods() {
        add_period(table, report, meters, period);
    }
}

// Works every total of a table out from nothing.
pub fn fill_table<E: Entries, R: Report>(table: &mut Totals<'_, R::Amount>, report: &R, meters: &E)
    ensures { Filled R.Amount.algebra (R.rules report.now) (E.entries meters.now) (E.count meters.now) table.old table.new }
{
    table.clear();
    add_periods(table, report, meters);
}

impl<'a, R: Report> Account<'a, R, R::Amount> {
    // Works every total out from nothing, if there is one amount for each period and place; else it gets 1.
    pub fn settle<E: Entries>(&mut self, periods: u8, meters: &E) -> Result<(), Refusal>
        ensures settled { Settled R.Amount.algebra (R.rules self.old.report.now) (E.entries meters.now) (E.count meters.now) periods self.old.totals.now self.new.totals.now result }
        ensures same { SameAccount self.old self.new }
    {
        if !self.fits(periods) {
            return Err(Refusal::Sizes);
        }
        let mut table = Totals {
            places: self.report.place_count(),
            cells: self.totals,
            periods,
        };
        fill_table(&mut table, self.report, meters);
        Ok(())
    }
}
