// The calls on a day, one by one: each is turned down by the lowest of its faults, and then nothing has changed, or it is done.
ghost use Rattle.rules.specs.Asked as asks;
ghost use Rattle.settlement.specs.World.{setting_of, world_of, SameLent};
ghost use Rattle.settlement.specs.Steps.{Step};

use crate::day::{Day, Outcome};
use crate::inputs::Inputs;
use crate::perform::perform;
use market::refusal::Refusal;
use meters::row::MeterRow;
use readings::delivery::Delivery;
use rules::call::Call;
use rules::revision::Revision;
use stores::period::Period;
use stores::store::Store;
use totals::account::Account;
use totals::report::Report;

// Works every total out from nothing. The day is then settled.
pub fn settle<S: Store, Q: Report, R: Report>(
    day: &mut Day,
    inputs: &mut Inputs<'_, S>,
    first: &mut Account<'_, Q, Q::Amount>,
    second: &mut Account<'_, R, R::Amount>,
) -> Result<Outcome, Refusal>
    ensures step { Step (setting_of S.Store Q.Report Q.Amount.Amount R.Report R.Amount.Amount first.old second.old) (world_of day.old inputs.old first.old second.old) asks.settle result (world_of day.new inputs.new first.new second.new) }
    ensures lent { SameLent inputs.old first.old second.old inputs.new first.new second.new }
{
    perform(day, inputs, first, second, Call::Settle)
}

// Puts a reading for a meter and a period, if nothing or a less foremost one is stored; else it is superseded, and nothing changes.
pub fn deliver<S: Store, Q: Report, R: Report>(
    day: &mut Day,
    inputs: &mut Inputs<'_, S>,
    first: &mut Account<'_, Q, Q::Amount>,
    second: &mut Account<'_, R, R::Amount>,
    meter: usize,
    period: S::Period,
    delivery: Delivery,
) -> Result<Outcome, Refusal>
    ensures step { Step (setting_of S.Store Q.Report Q.Amount.Amount R.Report R.Amount.Amount first.old second.old) (world_of day.old inputs.old first.old second.old) (asks.deliver meter (S.Period.number period) delivery) result (world_of day.new inputs.new first.new second.new) }
    ensures lent { SameLent inputs.old first.old second.old inputs.new first.new second.new }
{
    perform(
        day,
        inputs,
        first,
        second,
        Call::Deliver {
            meter,
            period,
            reading: delivery,
        },
    )
}

// Replaces the record of a meter.
pub fn amend<S: Store, Q: Report, R: Report>(
    day: &mut Day,
    inputs: &mut Inputs<'_, S>,
    first: &mut Account<'_, Q, Q::Amount>,
    second: &mut Account<'_, R, R::Amount>,
    meter: usize,
    row: MeterRow,
) -> Result<Outcome, Refusal>
    ensures step { Step (setting_of S.Store Q.Report Q.Amount.Amount R.Report R.Amount.Amount first.old second.old) (world_of day.old inputs.old first.old second.old) (asks.amend meter row) result (world_of day.new inputs.new first.new second.new) }
    ensures lent { SameLent inputs.old first.old second.old inputs.new first.new second.new }
{
    perform(day, inputs, first, second, Call::Amend { meter, row })
}

// Two calls that name their revision, here and below: a host calls each of the six by its name.
// Sets the line loss factor of a loss class in a period.
pub fn set_factor<S: Store, Q: Report, R: Report>(
    day: &mut Day,
    inputs: &mut Inputs<'_, S>,
    first: &mut Account<'_, Q, Q::Amount>,
    second: &mut Account<'_, R, R::Amount>,
    class: u8,
    period: S::Period,
    factor: u16,
) -> Result<Outcome, Refusal>
    ensures step { Step (setting_of S.Store Q.Report Q.Amount.Amount R.Report R.Amount.Amount first.old second.old) (world_of day.old inputs.old first.old second.old) (asks.factor class (S.Period.number period) factor) result (world_of day.new inputs.new first.new second.new) }
    ensures lent { SameLent inputs.old first.old second.old inputs.new first.new second.new }
{
    let revision = Revision::Factor { class, factor };
    perform(
        day,
        inputs,
        first,
        second,
        Call::Revise { period, revision },
    )
}

// Sets the load shape of a shape class in a period.
pub fn set_shape<S: Store, Q: Report, R: Report>(
    day: &mut Day,
    inputs: &mut Inputs<'_, S>,
    first: &mut Account<'_, Q, Q::Amount>,
    second: &mut Account<'_, R, R::Amount>,
    class: u8,
    period: S::Period,
    shape: u32,
) -> Result<Outcome, Refusal>
    ensures step { Step (setting_of S.Store Q.Report Q.Amount.Amount R.Report R.Amount.Amount first.old second.old) (world_of day.old inputs.old first.old second.old) (asks.shape class (S.Period.number period) shape) result (world_of day.new inputs.new first.new second.new) }
    ensures lent { SameLent inputs.old first.old second.old inputs.new first.new second.new }
{
    let revision = Revision::Shape { class, shape };
    perform(
        day,
        inputs,
        first,
        second,
        Call::Revise { period, revision },
    )
}

// Makes a settled day final.
pub fn close<S: Store, Q: Report, R: Report>(
    day: &mut Day,
    inputs: &mut Inputs<'_, S>,
    first: &mut Account<'_, Q, Q::Amount>,
    second: &mut Account<'_, R, R::Amount>,
) -> Result<Outcome, Refusal>
    ensures step { Step (setting_of S.Store Q.Report Q.Amount.Amount R.Report R.Amount.Amount first.old second.old) (world_of day.old inputs.old first.old second.old) asks.close result (world_of day.new inputs.new first.new second.new) }
    ensures lent { SameLent inputs.old first.old second.old inputs.new first.new second.new }
{
    perform(day, inputs, first, second, Call::Close)
}
