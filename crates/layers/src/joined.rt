// A joined day: two UTC dates, the date before and the date, shown as a Settlement Day of one of the four kinds.
ghost use Rattle.std.specs.Prelude.{◌≡◌};
ghost use Rattle.market.specs.Clock.{periods_of};
ghost use Rattle.stores.specs.Grid.{one, both};
ghost use Rattle.layers.specs.Joined.{joined_grid, common_meters, kind_place, LiesAt};

use market::clock::{ClockPlace, DayKind, SettlementPeriod, UtcDate, UtcPeriod, convert};
use market::refusal::Refusal;
use readings::reading::Reading;
use stores::store::Store;

// Two stores of 48 UTC periods each, of any make, held or lent.
#[derive(Drop)]
pub struct JoinedDay<F: Store<Period = UtcPeriod>, D: Store<Period = UtcPeriod>> {
    kind: DayKind,
    before: F,
    date: D,
}

impl<F: Store<Period = UtcPeriod>, D: Store<Period = UtcPeriod>> JoinedDay<F, D> {
    // The day of a kind over the date before and the date.
    pub fn new(kind: DayKind, before: F, date: D) -> JoinedDay<F, D>
        ensures { (result.kind ≡ kind) × (result.before ≡ before) × (result.date ≡ date) }
    {
        JoinedDay { kind, before, date }
    }

    // The date and the period where a place of the day lies, if there is one.
    fn place_of(&self, meter: usize, period: SettlementPeriod) -> Option<(UtcDate, UtcPeriod)>
        ensures { LiesAt self.now.kind (common_meters (F.Store.meters self.now.before) (F.Store.periods self.now.before) (D.Store.meters self.now.date) (D.Store.periods self.now.date)) meter period.0 result }
    {
        if !(1..=self.meter_count()).contains(&meter) {
            return None;
        }
        match convert(self.kind, ClockPlace::Settlement(period)) {
            Ok(Some(ClockPlace::Utc(date, utc))) => Some((date, utc)),
            _ => None,
        }
    }
}

impl<F: Store<Period = UtcPeriod>, D: Store<Period = UtcPeriod>> Store for JoinedDay<F, D> {
    type Period = SettlementPeriod;

    ghost grid = { λ j. joined_grid j.kind (common_meters (F.Store.meters j.before) (F.Store.periods j.before) (D.Store.meters j.date) (D.Store.periods j.date)) (F.Store.grid j.before) (D.Store.grid j.date) };

    ghost meters = { λ j. common_meters (F.Store.meters j.before) (F.Store.periods j.before) (D.Store.meters j.date) (D.Store.periods j.date) };

    ghost periods = { λ j. periods_of j.kind };

    ghost fixed = { λ j. both (one (kind_place j.kind)) (both (F.Store.fixed j.before) (D.Store.fixed j.date)) };

    fn meter_count(&self) -> usize {
        if self.before.period_count() == 48 && self.date.period_count() == 48 {
            self.before.meter_count().min(self.date.meter_count())
        } else {
            0
        }
    }

    fn period_count(&self) -> u8 {
        self.kind.periods()
    }

    fn show(&self, meter: usize, period: SettlementPeriod) -> Option<Reading> {
        match self.place_of(meter, period)? {
            (UtcDate::DateBefore, utc) => self.before.show(meter, utc),
            (UtcDate::TheDate, utc) => self.date.show(meter, utc),
        }
    }

    fn put(
        &mut self,
        meter: usize,
        period: SettlementPeriod,
        reading: Reading,
    ) -> Result<(), Refusal> {
        match (*self).place_of(meter, period).ok_or(Refusal::NoSuch)? {
            (UtcDate::DateBefore, utc) => self.before.put(meter, utc, reading),
            (UtcDate::TheDate, utc) => self.date.put(meter, utc, reading),
        }
    }
}
