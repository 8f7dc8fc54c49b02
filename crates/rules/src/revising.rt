// The faults of all meters in one period.
ghost use Rattle.std.specs.Prelude.{length};
ghost use Rattle.market.specs.Lowest.{Lowest, turned_down};
ghost use Rattle.rules.specs.Joined.{Among};
ghost use Rattle.rules.specs.Places.{RowFault};
ghost use Rattle.rules.specs.Tables.{row_of};

use crate::lowest::lowest_of_rows;
use crate::sources::Sources;
use market::refusal::Refusal;
use meters::meter::Meter;
use meters::row::MeterRow;
use stores::store::Store;

impl<'a, S: Store> Sources<'a, S> {
    // The lowest fault of a record: that it is unlawful, or that of its meter in the period.
    fn check_row(&self, row: MeterRow, number: usize, period: u8) -> Result<(), Refusal>
        ensures { Lowest (RowFault (S.grid self.now.store.now) self.now.factors.now self.now.shapes.now period row number) (turned_down result) }
    {
        self.check_place(Meter::new(row)?, number, period)
    }

    // The lowest fault of all records in the period.
    pub(crate) fn check_period(&self, period: u8) -> Result<(), Refusal>
        ensures { Lowest (Among (length self.now.rows.now) (λ m. RowFault (S.grid self.now.store.now) self.now.factors.now self.now.shapes.now period (row_of self.now.rows.now m) m)) (turned_down result) }
    {
        lowest_of_rows(self.rows, |row, number| self.check_row(row, number, period))
    }
}
