// The faults of a delivery: of what it reads, and of what is given.
ghost use Rattle.std.specs.Prelude.{◌≡◌};
ghost use Rattle.market.specs.Lowest.{Lowest, turned_down};
ghost use Rattle.readings.specs.Delivery.{WhenOk};
ghost use Rattle.rules.specs.Rules.{DeliverFault};
ghost use Rattle.rules.specs.Places.{OneFault, MeterOf};

use crate::case::Case;
use crate::state::State;
use market::refusal::Refusal;
use meters::meter::Meter;
use meters::row::MeterRow;
use readings::delivery::Delivery;
use readings::reading::Reading;
use stores::store::Store;

impl<'a, S: Store> Case<'a, S> {
    // The meter of a record, if it is lawful and, on a settled day, has no fault in the period.
    pub(crate) fn check_meter(
        &self,
        row: MeterRow,
        number: usize,
        period: u8,
    ) -> Result<Meter, Refusal>
        ensures lowest { Lowest (OneFault self.now.state (S.grid self.now.sources.store.now) self.now.sources.factors.now self.now.sources.shapes.now row number period) (turned_down result) }
        ensures meter { MeterOf row result }
    {
        let meter = Meter::new(row)?;
        if self.state == State::Settled {
            self.sources.check_place(meter, number, period)?;
        }
        Ok(meter)
    }
}

// The reading that is given for a meter, if it is one, within the limit, and counts there.
pub fn check_delivery(meter: Meter, limit: u64, delivery: Delivery) -> Result<Reading, Refusal>
    ensures lowest { Lowest (DeliverFault meter.row limit delivery) (turned_down result) }
    ensures reading { WhenOk delivery result }
{
    let reading = delivery.accept(limit)?;
    meter.admit(reading.quality())?;
    Ok(reading)
}
