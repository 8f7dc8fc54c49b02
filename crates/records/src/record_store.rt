// The record store.
ghost use Rattle.std.specs.Prelude.{None};
ghost use Rattle.records.specs.Records.{shown_in, written_in, records_laws};

use readings::reading::Reading;
use stores::date_store::DateStore;
use stores::layout::Layout;

// Readings in records: one record to a place, which holds a reading or nothing.
pub struct Records;

impl Layout for Records {
    type Cell = Option<Reading>;

    const CELLS: usize = 1;

    ghost CELLS = { 1 };

    ghost blank = { None };

    ghost shown = { shown_in };

    ghost written = { written_in };

    ghost laws = { records_laws };

    fn blank(records: &mut [Option<Reading>]) {
        records.fill(None);
    }

    fn show(records: &[Option<Reading>], place: usize) -> Option<Reading> {
        records.get(place).copied().flatten()
    }

    fn write(records: &mut [Option<Reading>], place: usize, reading: Reading) {
        if place < records.len() {
            records[place] = Some(reading);
        }
    }
}

// One UTC date in records that are lent.
pub type RecordStore<'a> = DateStore<'a, Records>;
