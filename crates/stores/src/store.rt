// What a store is.
ghost use Rattle.std.specs.Prelude.{◌≡◌, ℕ, ◌≤◌};
ghost use Rattle.stores.specs.Grid.{Grid, Fixed, one, both, Bounded, Put};

use crate::period::Period;
use market::refusal::Refusal;
use readings::reading::Reading;

// A place is told by its meter and its period: a struct of both would be made only to be taken apart.
// A store has meters and periods, counted from 1, and for each of both nothing or one reading: that is its grid. All that is said of a
// store is said of its grid.
pub trait Store {
    type Period: Period;

    ghost grid: { Self → Grid };

    ghost meters: { Self → ℕ };

    ghost periods: { Self → ℕ };

    ghost fixed: { Self → Fixed };

    // How many meters it has, at most 4,096.
    fn meter_count(&self) -> usize
        ensures value { result ≡ meters self.now }
        ensures bound { result ≤ 4096 };

    // How many periods it has.
    fn period_count(&self) -> u8
        ensures { result ≡ periods self.now };

    // What stands at a place; nothing outside the store.
    fn show(&self, meter: usize, period: Self::Period) -> Option<Reading>
        ensures value { result ≡ grid self.now meter (Self.Period.Period.number period) }
        ensures bounded { Bounded (grid self.now) (meters self.now) (periods self.now) };

    // Puts a reading in the place of what stands there.
    fn put(&mut self, meter: usize, period: Self::Period, reading: Reading) -> Result<(), Refusal>
        ensures { Put grid meters periods fixed self.old self.new meter (Self.Period.Period.number period) reading result };
}

// A store that is lent is a store.
impl<'a, S: Store> Store for &'a mut S {
    type Period = S::Period;

    ghost grid = { λ s. S.Store.grid s.now };

    ghost meters = { λ s. S.Store.meters s.now };

    ghost periods = { λ s. S.Store.periods s.now };

    ghost fixed = { λ s. both (one s.ghost_name) (S.Store.fixed s.now) };

    fn meter_count(&self) -> usize {
        (**self).meter_count()
    }

    fn period_count(&self) -> u8 {
        (**self).period_count()
    }

    fn show(&self, meter: usize, period: S::Period) -> Option<Reading> {
        (**self).show(meter, period)
    }

    fn put(&mut self, meter: usize, period: S::Period, reading: Reading) -> Result<(), Refusal> {
        (**self).put(meter, period, reading)
    }
}
