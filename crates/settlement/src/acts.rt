// What settling, delivering and closing do, once nothing speaks against it.
// What a deed asks for stands at each, here and in the other module: it holds once a call was judged, and a type for it would hold all four parts.
ghost use Rattle.std.specs.Prelude.{Decides};
ghost use Rattle.rules.specs.Asked.{settles, delivers, closes};
ghost use Rattle.rules.specs.Standing.{Sized};
ghost use Rattle.rules.specs.States.{Untimely};
ghost use Rattle.rules.specs.declared.state.Event.TheVariants.{Settle, Close};
ghost use Rattle.settlement.specs.World.{setting_of, world_of, standing_of, SameLent};
ghost use Rattle.settlement.specs.Steps.{Leads, Acted, Placed};

use crate::day::{Day, Outcome};
use crate::inputs::Inputs;
use engine::entry::entry_of;
use engine::meter_entries::MeterEntries;
use readings::reading::Reading;
use rules::state::{Event, State};
use stores::period::Period;
use stores::store::Store;
use totals::account::Account;
use totals::report::Report;

// Whether a reading comes to stand where another or nothing is stored.
fn comes_to_stand(reading: Reading, stored: Option<Reading>) -> bool
    ensures { Decides result (Leads reading stored) }
{
    stored.is_none_or(|other| reading.is_ahead_of(other))
}

// Works every total out from nothing; the day is then settled.
pub(crate) fn act_settle<S: Store, Q: Report, R: Report>(
    day: &mut Day,
    inputs: &mut Inputs<'_, S>,
    first: &mut Account<'_, Q, Q::Amount>,
    second: &mut Account<'_, R, R::Amount>,
) -> Outcome
    requires sized { Sized (standing_of (setting_of S.Store Q.Report Q.Amount.Amount R.Report R.Amount.Amount first.old second.old) (world_of day.old inputs.old first.old second.old)) }
    requires timely { Untimely day.old.state Settle → ⊥ }
    ensures acted { Acted (setting_of S.Store Q.Report Q.Amount.Amount R.Report R.Amount.Amount first.old second.old) (world_of day.old inputs.old first.old second.old) settles result (world_of day.new inputs.new first.new second.new) }
    ensures lent { SameLent inputs.old first.old second.old inputs.new first.new second.new }
{
    let periods = day.periods;
    let sources = inputs.sources();
    let entries = MeterEntries { sources: &sources };
    let _ = first.settle(periods, &entries);
    let _ = second.settle(periods, &entries);
    let _ = day.state.advance(Event::Settle);
    Outcome::Done
}

// Makes the day final.
pub(crate) fn act_close<S: Store, Q: Report, R: Report>(
    day: &mut Day,
    inputs: &mut Inputs<'_, S>,
    first: &mut Account<'_, Q, Q::Amount>,
    second: &mut Account<'_, R, R::Amount>,
) -> Outcome
    requires timely { Untimely day.old.state Close → ⊥ }
    ensures acted { Acted (setting_of S.Store Q.Report Q.Amount.Amount R.Report R.Amount.Amount first.old second.old) (world_of day.old inputs.old first.old second.old) closes result (world_of day.new inputs.new first.new second.new) }
    ensures lent { SameLent inputs.old first.old second.old inputs.new first.new second.new }
{
    let _ = day.state.advance(Event::Close);
    Outcome::Done
}

// Puts a reading if it comes to stand; on a settled day the totals follow.
pub(crate) fn act_deliver<S: Store, Q: Report, R: Report>(
    day: &mut Day,
    inputs: &mut Inputs<'_, S>,
    first: &mut Account<'_, Q, Q::Amount>,
    second: &mut Account<'_, R, R::Amount>,
    meter: usize,
    period: S::Period,
    reading: Reading,
) -> Outcome
    requires sized { Sized (standing_of (setting_of S.Store Q.Report Q.Amount.Amount R.Report R.Amount.Amount first.old second.old) (world_of day.old inputs.old first.old second.old)) }
    requires placed { Placed (setting_of S.Store Q.Report Q.Amount.Amount R.Report R.Amount.Amount first.old second.old) (world_of day.old inputs.old first.old second.old) meter (S.Period.number period) }
    ensures acted { Acted (setting_of S.Store Q.Report Q.Amount.Amount R.Report R.Amount.Amount first.old second.old) (world_of day.old inputs.old first.old second.old) (delivers meter (S.Period.number period) reading) result (world_of day.new inputs.new first.new second.new) }
    ensures lent { SameLent inputs.old first.old second.old inputs.new first.new second.new }
{
    let stored = inputs.store.show(meter, period);
    if !comes_to_stand(reading, stored) {
        return Outcome::Superseded;
    }
    let _ = inputs.store.put(meter, period, reading);
    if day.state == State::Settled {
        let periods = day.periods;
        let number = period.number_of();
        let sources = inputs.sources();
        let row = sources.row(meter);
        let old = entry_of(&sources, row, stored, number);
        let new = entry_of(&sources, row, Some(reading), number);
        let _ = first.replace(periods, number, old, new);
        let _ = second.replace(periods, number, old, new);
    }
    Outcome::Done
}
