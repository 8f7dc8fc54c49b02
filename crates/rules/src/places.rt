// The faults of one meter's record, in one period and in all.
// A record and its number stay two parameters: a struct of both would be of records in one place and of meters in the other, and be taken apart at each step.
ghost use Rattle.std.specs.Prelude.{length, Decides};
ghost use Rattle.market.specs.Lowest.{Lowest, turned_down};
ghost use Rattle.rules.specs.Joined.{Among};
ghost use Rattle.rules.specs.Places.{Unclassed, TableFault, PlaceFault, WholeFault};
ghost use Rattle.rules.specs.Tables.{row_of};

use crate::lowest::{lowest_of_periods, lowest_of_rows};
use crate::revision::{LARGEST_FACTOR, LARGEST_SHAPE};
use crate::sources::Sources;
use market::refusal::Refusal;
use meters::meter::Meter;
use meters::row::{MeterRow, Quantity};
use readings::reading::Reading;
use stores::period::Period;
use stores::store::Store;

// Whether a stored reading has no class at the meter.
pub(crate) fn is_unclassed(meter: Meter, stored: Option<Reading>) -> bool
    ensures { Decides result (Unclassed meter.row stored) }
{
    stored.is_some_and(|reading| meter.class(reading.quality()).is_none())
}

// The lowest fault of the meter's factor and shape: above its limit or blank.
fn check_entries(meter: Meter, factor: Option<u16>, shape: Option<u32>) -> Result<(), Refusal>
    ensures { Lowest (TableFault meter.row factor shape) (turned_down result) }
{
    let import = meter.row().quantity == Quantity::Import;
    if factor.is_some_and(|value| value > LARGEST_FACTOR)
        || (import && shape.is_some_and(|value| value > LARGEST_SHAPE))
    {
        Err(Refusal::AboveLimit)
    } else if factor.is_none() {
        Err(Refusal::BlankFactor)
    } else if import && shape.is_none() {
        Err(Refusal::BlankShape)
    } else {
        Ok(())
    }
}

impl<'a, S: Store> Sources<'a, S> {
    // The lowest fault of a meter in a period: a stored reading without a class, then its factor and shape.
    pub(crate) fn check_place(&self, meter: Meter, number: usize, period: u8) -> Result<(), Refusal>
        ensures { Lowest (PlaceFault (S.grid self.now.store.now) self.now.factors.now self.now.shapes.now meter.row number period) (turned_down result) }
    {
        if is_unclassed(meter, self.store.show(number, S::Period::of_number(period))) {
            return Err(Refusal::UnclassedReading);
        }
        let row = meter.row();
        check_entries(meter, self.factor(row, period), self.shape(row, period))
    }

    // The lowest fault of a meter in all periods.
    fn check_periods(&self, meter: Meter, number: usize, periods: u8) -> Result<(), Refusal>
        ensures { Lowest (Among periods (PlaceFault (S.grid self.now.store.now) self.now.factors.now self.now.shapes.now meter.row number)) (turned_down result) }
    {
        lowest_of_periods(periods, |period| self.check_place(meter, number, period))
    }

    // The lowest fault of a record: that it is unlawful, or that of its meter in all periods.
    pub(crate) fn check_record(
        &self,
        row: MeterRow,
        number: usize,
        periods: u8,
    ) -> Result<(), Refusal>
        ensures { Lowest (WholeFault (S.grid self.now.store.now) self.now.factors.now self.now.shapes.now periods row number) (turned_down result) }
    {
        self.check_periods(Meter::new(row)?, number, periods)
    }

    // The lowest fault of all records in all periods.
    pub(crate) fn check_records(&self, periods: u8) -> Result<(), Refusal>
        ensures { Lowest (Among (length self.now.rows.now) (λ m. WholeFault (S.grid self.now.store.now) self.now.factors.now self.now.shapes.now periods (row_of self.now.rows.now m) m)) (turned_down result) }
    {
        lowest_of_rows(
            self.rows,
            |row, number| self.check_record(row, number, periods),
        )
    }
}
