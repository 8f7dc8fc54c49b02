// The faults of a call as such: sizes, state, and what does not exist.
ghost use Rattle.std.specs.Prelude.{Decides};
ghost use Rattle.market.specs.Lowest.{Lowest, turned_down};
ghost use Rattle.rules.specs.Asked.{asked};
ghost use Rattle.rules.specs.Rules.{FirstFault, Fitting};
ghost use Rattle.rules.specs.Standing.{standing_of, Sized, Counted, Exists};

use crate::call::Call;
use crate::case::Case;
use crate::revision::Revision;
use crate::tables::{LOSS_CLASSES, SHAPE_CLASSES};
use market::refusal::Refusal;
use readings::delivery::Delivery;
use stores::period::Period;
use stores::store::Store;

// The largest volume limit of a day.
const LARGEST_LIMIT: u64 = 1_000_000_000;

// Whether there are such a class and period.
fn is_entry(classes: u8, class: u8, periods: u8, period: u8) -> bool
    ensures { Decides result (Counted classes class × Counted periods period) }
{
    (1..=classes).contains(&class) && (1..=periods).contains(&period)
}

// Whether the meter, the class and the period that a call names exist.
fn is_there<P: Period>(periods: u8, meters: usize, call: Call<P, Delivery>) -> bool
    ensures { Decides result (Exists meters periods (asked P.number call)) }
{
    match call {
        Call::Settle | Call::Close => true,
        Call::Deliver { meter, period, .. } => {
            let period = period.number_of();
            (1..=meters).contains(&meter) && (1..=periods).contains(&period)
        }
        Call::Amend { meter, .. } => (1..=meters).contains(&meter),
        Call::Revise {
            period,
            revision: Revision::Factor { class, .. },
        } => { is_entry(LOSS_CLASSES, class, periods, period.number_of()) }
        Call::Revise {
            period,
            revision: Revision::Shape { class, .. },
        } => { is_entry(SHAPE_CLASSES, class, periods, period.number_of()) }
    }
}

impl<'a, S: Store> Case<'a, S> {
    // Whether all that was handed over is of the day's size.
    fn fits(&self) -> bool
        ensures { Decides result (Sized (standing_of S.Store self.now)) }
    {
        let sizes = self.sizes;
        let periods = usize::from(sizes.periods);
        (1..=50).contains(&sizes.periods)
            && (1..=LARGEST_LIMIT).contains(&sizes.limit)
            && (1..=self.sources.store.meter_count()).contains(&self.sources.rows.len())
            && self.sources.store.period_count() == sizes.periods
            && self.sources.factors.len() == usize::from(LOSS_CLASSES) * periods
            && self.sources.shapes.len() == usize::from(SHAPE_CLASSES) * periods
            && sizes.first.fits(sizes.periods)
            && sizes.second.fits(sizes.periods)
    }

    // The lowest fault of a call as such.
    pub(crate) fn check_first(&self, call: Call<S::Period, Delivery>) -> Result<(), Refusal>
        ensures lowest { Lowest (FirstFault (standing_of S.Store self.now) (asked S.Period.number call)) (turned_down result) }
        ensures clean { Fitting (standing_of S.Store self.now) (asked S.Period.number call) result }
    {
        if !self.fits() {
            return Err(Refusal::Sizes);
        }
        let mut next = self.state;
        next.advance(call.event())?;
        if is_there(self.sizes.periods, self.sources.rows.len(), call) {
            Ok(())
        } else {
            Err(Refusal::NoSuch)
        }
    }
}
