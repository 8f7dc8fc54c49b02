// Entries that come into a table of totals and go again.
// Table and report stay two parameters: by a struct of both each contract would say again that the report stays, and be no plainer.
ghost use Rattle.totals.specs.Moves.{EntryAdded, EntryTaken, EntryReplaced};

use crate::entry::{Entry, named};
use crate::report::Report;
use crate::totals::Totals;

// Two functions, here and below: by one with the operation as a parameter, an edit of either could not be told from an edit of both.
// Adds what an entry brings to the totals of a period. A place that the table lacks has no total to change.
pub fn add_entry<R: Report>(table: &mut Totals<'_, R::Amount>, report: &R, period: u8, entry: Entry)
    ensures { EntryAdded R.Amount.algebra (R.rules report.now) period entry table.old table.new }
{
    if let Some((place, amount)) = named(report, entry) {
        let _ = table.add(period, place, amount);
    }
}

// Takes away what an entry brought to the totals of a period.
pub fn take_entry<R: Report>(
    table: &mut Totals<'_, R::Amount>,
    report: &R,
    period: u8,
    entry: Entry,
)
    ensures { EntryTaken R.Amount.algebra (R.rules report.now) period entry table.old table.new }
{
    if let Some((place, amount)) = named(report, entry) {
        let _ = table.take_away(period, place, amount);
    }
}

// One entry in the place of another: what the old one brought is taken away, and what the new one brings is added.
pub fn replace_entry<R: Report>(
    table: &mut Totals<'_, R::Amount>,
    report: &R,
    period: u8,
    old: Entry,
    new: Entry,
)
    ensures { EntryReplaced R.Amount.algebra (R.rules report.now) period old new table.old table.new }
{
    take_entry(table, report, period, old);
    add_entry(table, report, period, new);
}
