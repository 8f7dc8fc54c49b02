// What a day is worked out from.
ghost use Rattle.std.specs.Prelude.{◌≡◌};
ghost use Rattle.rules.specs.Tables.{factor_of, shape_of, row_of};

use crate::tables::{LOSS_CLASSES, NO_ROW, SHAPE_CLASSES, entry_at};
use meters::row::MeterRow;

// A store with the records of its meters and the tables of factors and shapes, all of them lent.
#[derive(Drop)]
pub struct Sources<'a, S> {
    pub store: &'a S,
    pub rows: &'a [MeterRow],
    pub factors: &'a [Option<u16>],
    pub shapes: &'a [Option<u32>],
}

impl<'a, S> Sources<'a, S> {
    // The record of a meter, counted from 1; that of no meter, which is unlawful, past the last one.
    pub fn row(&self, number: usize) -> MeterRow
        ensures { result ≡ row_of self.now.rows.now number }
    {
        self.rows
            .get(number.saturating_sub(1))
            .copied()
            .unwrap_or(NO_ROW)
    }

    // Two methods, here and below: behind both is `entry_at`, and they differ in the table, its classes and the field of the record.
    // The line loss factor of a record's loss class in a period, if there is one.
    pub fn factor(&self, row: MeterRow, period: u8) -> Option<u16>
        ensures { result ≡ factor_of self.now.factors.now row.loss_class period }
    {
        entry_at(self.factors, LOSS_CLASSES, row.loss_class, period)
    }

    // The load shape of a record's shape class in a period, if there is one.
    pub fn shape(&self, row: MeterRow, period: u8) -> Option<u32>
        ensures { result ≡ shape_of self.now.shapes.now row.shape_class period }
    {
        entry_at(self.shapes, SHAPE_CLASSES, row.shape_class, period)
    }
}
