// A window: one period of a store, shown as a store of one period.
ghost use Rattle.std.specs.Prelude.{◌≡◌};
ghost use Rattle.stores.specs.Grid.{one, both};
ghost use Rattle.layers.specs.Window.{window_of, meters_at};

use market::clock::SettlementPeriod;
use market::refusal::Refusal;
use readings::reading::Reading;
use stores::period::Period;
use stores::store::Store;

// One period of the store below, which may be held or lent. It has no meters where that store lacks the period.
#[derive(Drop)]
pub struct Window<S: Store> {
    below: S,
    period: S::Period,
}

impl<S: Store> Window<S> {
    // A window on a period.
    pub fn new(below: S, period: S::Period) -> Window<S>
        ensures { (result.below ≡ below) × (result.period ≡ period) }
    {
        Window { below, period }
    }
}

impl<S: Store> Store for Window<S> {
    type Period = SettlementPeriod;

    ghost grid = { λ w. window_of (S.Store.grid w.below) (S.Period.Period.number w.period) };

    ghost meters = { λ w. meters_at (S.Store.meters w.below) (S.Store.periods w.below) (S.Period.Period.number w.period) };

    ghost periods = { λ _. 1 };

    ghost fixed = { λ w. both (one (S.Period.Period.number w.period)) (S.Store.fixed w.below) };

    fn meter_count(&self) -> usize {
        let period = self.period.number_of();
        if (1..=self.below.period_count()).contains(&period) {
            self.below.meter_count()
        } else {
            0
        }
    }

    fn period_count(&self) -> u8 {
        1
    }

    fn show(&self, meter: usize, period: SettlementPeriod) -> Option<Reading> {
        let shown = self.below.show(meter, self.period);
        if period.0 == 1 { shown } else { None }
    }

    fn put(
        &mut self,
        meter: usize,
        period: SettlementPeriod,
        reading: Reading,
    ) -> Result<(), Refusal> {
        if period.0 == 1 {
            self.below.put(meter, self.period, reading)
        } else {
            Err(Refusal::NoSuch)
        }
    }
}
