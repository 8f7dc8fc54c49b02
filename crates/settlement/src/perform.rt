// One call on a day: judged, and then done or turned down.
ghost use Rattle.rules.specs.Asked.{asked};
ghost use Rattle.settlement.specs.World.{setting_of, world_of, SameLent};
ghost use Rattle.settlement.specs.Steps.{Step};

use crate::acts::{act_close, act_deliver, act_settle};
use crate::changes::{act_amend, act_factor, act_shape};
use crate::day::{Day, Outcome};
use crate::inputs::Inputs;
use crate::ruling::ruling;
use market::refusal::Refusal;
use readings::delivery::Delivery;
use rules::call::Call;
use rules::revision::Revision;
use stores::store::Store;
use totals::account::Account;
use totals::report::Report;

// Makes a call: the lowest of its faults is the answer, and nothing has changed; or it is done.
pub fn perform<S: Store, Q: Report, R: Report>(
    day: &mut Day,
    inputs: &mut Inputs<'_, S>,
    first: &mut Account<'_, Q, Q::Amount>,
    second: &mut Account<'_, R, R::Amount>,
    call: Call<S::Period, Delivery>,
) -> Result<Outcome, Refusal>
    ensures step { Step (setting_of S.Store Q.Report Q.Amount.Amount R.Report R.Amount.Amount first.old second.old) (world_of day.old inputs.old first.old second.old) (asked S.Period.number call) result (world_of day.new inputs.new first.new second.new) }
    ensures lent { SameLent inputs.old first.old second.old inputs.new first.new second.new }
{
    let outcome = match ruling(day, inputs, first, second, call)? {
        Call::Settle => act_settle(day, inputs, first, second),
        Call::Deliver {
            meter,
            period,
            reading,
        } => act_deliver(day, inputs, first, second, meter, period, reading),
        Call::Amend { meter, row } => act_amend(day, inputs, first, second, meter, row),
        Call::Revise {
            period,
            revision: Revision::Factor { class, factor },
        } => act_factor(day, inputs, first, second, class, period, factor),
        Call::Revise {
            period,
            revision: Revision::Shape { class, shape },
        } => act_shape(day, inputs, first, second, class, period, shape),
        Call::Close => act_close(day, inputs, first, second),
    };
    Ok(outcome)
}
