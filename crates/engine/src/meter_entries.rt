// The entries of all meters of a day.
ghost use Rattle.std.specs.Prelude.{length};
ghost use Rattle.engine.specs.Entries.{entries_of};

use crate::entry::entry_of;
use rules::sources::Sources;
use rules::tables::NO_ROW;
use stores::period::Period;
use stores::store::Store;
use totals::entries::Entries;
use totals::entry::Entry;

// What counts for each meter in each period, by what the day is worked out from.
#[derive(Drop)]
pub struct MeterEntries<'s, 'a, S> {
    pub sources: &'s Sources<'a, S>,
}

impl<'s, 'a, S: Store> Entries for MeterEntries<'s, 'a, S> {
    ghost entries = { λ m. entries_of (S.grid m.sources.now.store.now) m.sources.now.rows.now m.sources.now.factors.now m.sources.now.shapes.now };

    ghost count = { λ m. length m.sources.now.rows.now };

    fn meter_count(&self) -> usize {
        self.sources.rows.len()
    }

    fn entry_at(&self, index: usize, period: u8) -> Entry {
        let sources = self.sources;
        if index < sources.rows.len() {
            let stored = sources.store.show(index + 1, S::Period::of_number(period));
            entry_of(sources, sources.rows[index], stored, period)
        } else {
            entry_of(sources, NO_ROW, None, period)
        }
    }
}
