// Any list of calls on a day.
ghost use Rattle.std.specs.Prelude.{◌≡◌, ◌≤◌, [], length, vec_len, vec_capacity};
ghost use Rattle.settlement.specs.World.{setting_of, world_of, SameLent};
ghost use Rattle.settlement.specs.Runs.{history_of, NoDrift, Replayed};

use crate::day::{Day, Outcome};
use crate::inputs::Inputs;
use crate::perform::perform;
use market::refusal::Refusal;
use readings::delivery::Delivery;
use rules::call::Call;
use std::alloc::{AllocError, Global};
use stores::store::Store;
use totals::account::Account;
use totals::exactness::vouch_totals;
use totals::report::Report;

// Makes the calls one after the other, and notes each answer where there is room for all of them.
fn run_all<S: Store, Q: Report, R: Report>(
    day: &mut Day,
    inputs: &mut Inputs<'_, S>,
    first: &mut Account<'_, Q, Q::Amount>,
    second: &mut Account<'_, R, R::Amount>,
    calls: &[Call<S::Period, Delivery>],
    answers: &mut Vec<Result<Outcome, Refusal>>,
)
    requires empty { (answers.old.items ≡ []) × (vec_len answers.old ≡ 0) }
    requires room { length calls.now ≤ vec_capacity answers.old }
    ensures count { vec_len answers.new ≡ length calls.now }
    ensures run { NoDrift (setting_of S.Store Q.Report Q.Amount.Amount R.Report R.Amount.Amount first.old second.old) (world_of day.old inputs.old first.old second.old) (history_of S.Period.number calls.now answers.new.items) (world_of day.new inputs.new first.new second.new) }
    ensures lent { SameLent inputs.old first.old second.old inputs.new first.new second.new }
{
    vouch_totals(first.report);
    vouch_totals(second.report);
    let _ = inputs.store.meter_count();
    for call in calls {
        let answer = perform(day, inputs, first, second, *call);
        answers.push_reserved(answer);
    }
}

// Makes the calls of a list one after the other, and tells what each was answered. Without memory for the answers no call is made.
pub fn replay<S: Store, Q: Report, R: Report>(
    heap: Global,
    day: &mut Day,
    inputs: &mut Inputs<'_, S>,
    first: &mut Account<'_, Q, Q::Amount>,
    second: &mut Account<'_, R, R::Amount>,
    calls: &[Call<S::Period, Delivery>],
) -> Result<Vec<Result<Outcome, Refusal>>, AllocError>
    ensures replayed { Replayed (setting_of S.Store Q.Report Q.Amount.Amount R.Report R.Amount.Amount first.old second.old) S.Period.number (world_of day.old inputs.old first.old second.old) calls.now result (world_of day.new inputs.new first.new second.new) }
    ensures lent { SameLent inputs.old first.old second.old inputs.new first.new second.new }
{
    let mut answers = Vec::with_capacity(heap, calls.len())?;
    run_all(day, inputs, first, second, calls, &mut answers);
    Ok(answers)
}
