// Totals that follow a change of one factor or one shape.
// The period stays beside the revision: a call has it by its clock, and here it is a number.
ghost use Rattle.std.specs.Prelude.{◌≡◌, ◌+◌, ◌*◌, ◌<◌, length};
ghost use Rattle.engine.specs.Changes.{RevisedFrom, Revised};
ghost use Rattle.rules.specs.Tables.{row_of};
ghost use Rattle.totals.specs.Account.{SameAccount};

use crate::entry::entry_of;
use crate::revision::{concerns, revised_entry};
use market::refusal::Refusal;
use meters::row::MeterRow;
use rules::revision::Revision;
use rules::sources::Sources;
use stores::period::Period;
use stores::store::Store;
use totals::account::Account;
use totals::report::Report;

// One meter: if it is of the class, what counted by the old table is taken away, and what counts by the new one is added.
fn revise_meter<S: Store, R: Report>(
    sources: &Sources<'_, S>,
    account: &mut Account<'_, R, R::Amount>,
    periods: u8,
    revision: Revision,
    period: u8,
    i: usize,
    row: MeterRow,
)
    requires fits { length account.old.totals.now ≡ periods * (R.rules account.old.report.now).places }
    requires met { (i < length sources.now.rows.now) × (row ≡ row_of sources.now.rows.now (i + 1)) }
    ensures revised { RevisedFrom R.Amount.algebra (R.rules account.old.report.now) periods (S.grid sources.now.store.now) sources.now.rows.now sources.now.factors.now sources.now.shapes.now revision period i (i + 1) account.old.totals.now account.new.totals.now }
    ensures same { SameAccount account.old account.new }
{
    if concerns(revision, row) {
        let stored = sources.store.show(i + 1, S::Period::of_number(period));
        let before = entry_of(sources, row, stored, period);
        let after = revised_entry(sources, revision, row, stored, period);
        let _ = account.replace(periods, period, before, after);
    }
}

// Every meter of the class, in amounts of which there is one for each period and place; else they get 1. The tables are those before the
// change.
pub fn revise_totals<S: Store, R: Report>(
    sources: &Sources<'_, S>,
    account: &mut Account<'_, R, R::Amount>,
    periods: u8,
    revision: Revision,
    period: u8,
) -> Result<(), Refusal>
    ensures revised { Revised R.Amount.algebra (R.rules account.old.report.now) periods (S.grid sources.now.store.now) sources.now.rows.now sources.now.factors.now sources.now.shapes.now revision period account.old.totals.now account.new.totals.now result }
    ensures same { SameAccount account.old account.new }
{
    if !account.fits(periods) {
        return Err(Refusal::Sizes);
    }
    // by number: over the records themselves, an edit that leaves one out was refused for its form alone
    for i in 0..sources.rows.len() {
        revise_meter(
            sources,
            account,
            periods,
            revision,
            period,
            i,
            sources.rows[i],
        );
    }
    Ok(())
}
