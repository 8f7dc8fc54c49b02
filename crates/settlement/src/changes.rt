// What amending, and setting a factor or a shape, does, once nothing speaks against it.
ghost use Rattle.std.specs.Prelude.{◌≡◌};
ghost use Rattle.rules.specs.Asked as asks;
ghost use Rattle.rules.specs.Asked.{amends, refactors, reshapes};
ghost use Rattle.rules.specs.Standing.{Sized, IsMeter, Named};
ghost use Rattle.settlement.specs.World.{setting_of, world_of, standing_of, SameLent};
ghost use Rattle.settlement.specs.Steps.{Acted};

use crate::day::{Day, Outcome};
use crate::inputs::Inputs;
use engine::amending::amend_totals;
use engine::revising::revise_totals;
use meters::row::MeterRow;
use rules::revision::Revision;
use rules::state::State;
use rules::tables::{LOSS_CLASSES, SHAPE_CLASSES, set_entry};
use std::mem::replace;
use stores::period::Period;
use stores::store::Store;
use totals::account::Account;
use totals::report::Report;

// Replaces a meter's record; on a settled day the totals follow.
pub(crate) fn act_amend<S: Store, Q: Report, R: Report>(
    day: &mut Day,
    inputs: &mut Inputs<'_, S>,
    first: &mut Account<'_, Q, Q::Amount>,
    second: &mut Account<'_, R, R::Amount>,
    meter: usize,
    row: MeterRow,
) -> Outcome
    requires sized { Sized (standing_of (setting_of S.Store Q.Report Q.Amount.Amount R.Report R.Amount.Amount first.old second.old) (world_of day.old inputs.old first.old second.old)) }
    requires met { IsMeter (standing_of (setting_of S.Store Q.Report Q.Amount.Amount R.Report R.Amount.Amount first.old second.old) (world_of day.old inputs.old first.old second.old)) meter }
    ensures acted { Acted (setting_of S.Store Q.Report Q.Amount.Amount R.Report R.Amount.Amount first.old second.old) (world_of day.old inputs.old first.old second.old) (amends meter row) result (world_of day.new inputs.new first.new second.new) }
    ensures lent { SameLent inputs.old first.old second.old inputs.new first.new second.new }
{
    let old = replace(&mut inputs.rows[meter - 1], row);
    if day.state == State::Settled {
        let periods = day.periods;
        let sources = inputs.sources();
        let _ = amend_totals(&sources, first, periods, meter, old, row);
        let _ = amend_totals(&sources, second, periods, meter, old, row);
    }
    Outcome::Done
}

// Two functions, here and below: by one of a revision, an edit of what the totals follow was refused for its form alone.
// Sets the factor of a class in a period; on a settled day the totals follow first.
pub(crate) fn act_factor<S: Store, Q: Report, R: Report>(
    day: &mut Day,
    inputs: &mut Inputs<'_, S>,
    first: &mut Account<'_, Q, Q::Amount>,
    second: &mut Account<'_, R, R::Amount>,
    class: u8,
    period: S::Period,
    factor: u16,
) -> Outcome
    requires sized { Sized (standing_of (setting_of S.Store Q.Report Q.Amount.Amount R.Report R.Amount.Amount first.old second.old) (world_of day.old inputs.old first.old second.old)) }
    requires named { Named (standing_of (setting_of S.Store Q.Report Q.Amount.Amount R.Report R.Amount.Amount first.old second.old) (world_of day.old inputs.old first.old second.old)) (asks.factor class (S.Period.number period) factor) }
    ensures acted { Acted (setting_of S.Store Q.Report Q.Amount.Amount R.Report R.Amount.Amount first.old second.old) (world_of day.old inputs.old first.old second.old) (refactors class (S.Period.number period) factor) result (world_of day.new inputs.new first.new second.new) }
    ensures lent { SameLent inputs.old first.old second.old inputs.new first.new second.new }
{
    let number = period.number_of();
    match day.state {
        State::Settled => {
            let periods = day.periods;
            let revision = Revision::Factor { class, factor };
            let sources = inputs.sources();
            let _ = revise_totals(&sources, first, periods, revision, number);
            let _ = revise_totals(&sources, second, periods, revision, number);
            let _ = set_entry(inputs.factors, LOSS_CLASSES, class, number, factor);
            Outcome::Done
        }
        _ => {
            let _ = set_entry(inputs.factors, LOSS_CLASSES, class, number, factor);
            Outcome::Done
        }
    }
}

// Sets the shape of a class in a period; on a settled day the totals follow first.
pub(crate) fn act_shape<S: Store, Q: Report, R: Report>(
    day: &mut Day,
    inputs: &mut Inputs<'_, S>,
    first: &mut Account<'_, Q, Q::Amount>,
    second: &mut Account<'_, R, R::Amount>,
    class: u8,
    period: S::Period,
    shape: u32,
) -> Outcome
    requires sized { Sized (standing_of (setting_of S.Store Q.Report Q.Amount.Amount R.Report R.Amount.Amount first.old second.old) (world_of day.old inputs.old first.old second.old)) }
    requires named { Named (standing_of (setting_of S.Store Q.Report Q.Amount.Amount R.Report R.Amount.Amount first.old second.old) (world_of day.old inputs.old first.old second.old)) (asks.shape class (S.Period.number period) shape) }
    ensures acted { Acted (setting_of S.Store Q.Report Q.Amount.Amount R.Report R.Amount.Amount first.old second.old) (world_of day.old inputs.old first.old second.old) (reshapes class (S.Period.number period) shape) result (world_of day.new inputs.new first.new second.new) }
    ensures lent { SameLent inputs.old first.old second.old inputs.new first.new second.new }
{
    let number = period.number_of();
    match day.state {
        State::Settled => {
            let periods = day.periods;
            let revision = Revision::Shape { class, shape };
            let sources = inputs.sources();
            let _ = revise_totals(&sources, first, periods, revision, number);
            let _ = revise_totals(&sources, second, periods, revision, number);
            let _ = set_entry(inputs.shapes, SHAPE_CLASSES, class, number, shape);
            Outcome::Done
        }
        _ => {
            let _ = set_entry(inputs.shapes, SHAPE_CLASSES, class, number, shape);
            Outcome::Done
        }
    }
}
