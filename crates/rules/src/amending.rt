// The faults of a record that is to replace another on a new day: itself, and what is stored for its meter.
ghost use Rattle.market.specs.Lowest.{Lowest, turned_down};
ghost use Rattle.rules.specs.Joined.{Among};
ghost use Rattle.rules.specs.Places.{ReadingFault, StoredFault};

use crate::lowest::lowest_of_periods;
use crate::places::is_unclassed;
use crate::sources::Sources;
use market::refusal::Refusal;
use meters::meter::Meter;
use meters::row::MeterRow;
use stores::period::Period;
use stores::store::Store;

impl<'a, S: Store> Sources<'a, S> {
    // The fault of what is stored for a meter in a period.
    fn check_reading(&self, meter: Meter, number: usize, period: u8) -> Result<(), Refusal>
        ensures { Lowest (ReadingFault (S.grid self.now.store.now) meter.row number period) (turned_down result) }
    {
        if is_unclassed(meter, self.store.show(number, S::Period::of_number(period))) {
            Err(Refusal::UnclassedReading)
        } else {
            Ok(())
        }
    }

    // The fault of what is stored for a meter in all periods.
    fn check_readings(&self, meter: Meter, number: usize, periods: u8) -> Result<(), Refusal>
        ensures { Lowest (Among periods (ReadingFault (S.grid self.now.store.now) meter.row number)) (turned_down result) }
    {
        lowest_of_periods(periods, |period| self.check_reading(meter, number, period))
    }

    // The lowest fault of a record: that it is unlawful, or that of what is stored for its meter.
    pub(crate) fn check_stored(
        &self,
        row: MeterRow,
        number: usize,
        periods: u8,
    ) -> Result<(), Refusal>
        ensures { Lowest (StoredFault (S.grid self.now.store.now) periods row number) (turned_down result) }
    {
        self.check_readings(Meter::new(row)?, number, periods)
    }
}
