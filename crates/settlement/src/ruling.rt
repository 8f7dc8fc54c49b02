// The judgement of a call on what it is handed.
ghost use Rattle.rules.specs.Asked.{asked};
ghost use Rattle.rules.specs.Rules.{Judged, Cleared};
ghost use Rattle.settlement.specs.World.{setting_of, world_of, standing_of};

use crate::day::Day;
use crate::inputs::Inputs;
use market::refusal::Refusal;
use readings::delivery::Delivery;
use readings::reading::Reading;
use rules::call::Call;
use rules::case::Case;
use rules::sizes::{Extent, Sizes};
use stores::store::Store;
use totals::account::Account;
use totals::report::Report;

// What is to be done for a call, or the lowest of its faults.
pub(crate) fn ruling<S: Store, Q: Report, R: Report>(
    day: &Day,
    inputs: &Inputs<'_, S>,
    first: &Account<'_, Q, Q::Amount>,
    second: &Account<'_, R, R::Amount>,
    call: Call<S::Period, Delivery>,
) -> Result<Call<S::Period, Reading>, Refusal>
    ensures judged { Judged (standing_of (setting_of S.Store Q.Report Q.Amount.Amount R.Report R.Amount.Amount first.now second.now) (world_of day.now inputs.now first.now second.now)) (asked S.Period.number call) result }
    ensures cleared { Cleared S.Period.number (standing_of (setting_of S.Store Q.Report Q.Amount.Amount R.Report R.Amount.Amount first.now second.now) (world_of day.now inputs.now first.now second.now)) (asked S.Period.number call) result }
{
    let sizes = Sizes {
        periods: day.periods,
        limit: day.limit,
        first: Extent {
            totals: first.totals.len(),
            places: first.report.place_count(),
        },
        second: Extent {
            totals: second.totals.len(),
            places: second.report.place_count(),
        },
    };
    let case = Case {
        state: day.state,
        sizes,
        sources: inputs.sources(),
    };
    case.judge(call)
}
