// Totals that follow a change of one meter's record.
// Sources, account and periods stay apart, here and in the other module: one is read, one is changed, and a struct would be made at each call.
ghost use Rattle.engine.specs.Changes.{Amended};
ghost use Rattle.engine.specs.Entries.{entry_by};
ghost use Rattle.totals.specs.Account.{SameAccount};
ghost use Rattle.totals.specs.Moving.{Moved};

use crate::entry::entry_of;
use market::refusal::Refusal;
use meters::row::MeterRow;
use rules::sources::Sources;
use stores::period::Period;
use stores::store::Store;
use totals::account::Account;
use totals::report::Report;

// In one period: what counted by the old record is taken away, and what counts by the new one is added.
fn amend_period<S: Store, R: Report>(
    sources: &Sources<'_, S>,
    account: &mut Account<'_, R, R::Amount>,
    periods: u8,
    meter: usize,
    old: MeterRow,
    new: MeterRow,
    period: u8,
) -> Result<(), Refusal>
    ensures moved { Moved R.Amount.algebra (R.rules account.old.report.now) periods period (entry_by sources.now.factors.now sources.now.shapes.now old (S.grid sources.now.store.now meter period) period) (entry_by sources.now.factors.now sources.now.shapes.now new (S.grid sources.now.store.now meter period) period) account.old.totals.now account.new.totals.now result }
    ensures same { SameAccount account.old account.new }
{
    let stored = sources.store.show(meter, S::Period::of_number(period));
    let before = entry_of(sources, old, stored, period);
    let after = entry_of(sources, new, stored, period);
    account.replace(periods, period, before, after)
}

// In every period, in amounts of which there is one for each period and place; else they get 1.
pub fn amend_totals<S: Store, R: Report>(
    sources: &Sources<'_, S>,
    account: &mut Account<'_, R, R::Amount>,
    periods: u8,
    meter: usize,
    old: MeterRow,
    new: MeterRow,
) -> Result<(), Refusal>
    ensures amended { Amended R.Amount.algebra (R.rules account.old.report.now) periods (S.grid sources.now.store.now) sources.now.factors.now sources.now.shapes.now meter old new account.old.totals.now account.new.totals.now result }
    ensures same { SameAccount account.old account.new }
{
    if !account.fits(periods) {
        return Err(Refusal::Sizes);
    }
    for period in 1..=periods {
        let _ = amend_period(sources, account, periods, meter, old, new, period);
    }
    Ok(())
}
