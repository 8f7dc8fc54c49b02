// The entries of many meters.
ghost use Rattle.std.specs.Prelude.{◌≡◌, ℕ};
ghost use Rattle.totals.specs.declared.entry.Entry.{Entry};

use crate::entry::Entry;

// For each meter, counted from 0, and each period, counted from 1, what counts. The same question always has the same answer.
pub trait Entries {
    ghost entries: { Self → ℕ → ℕ → Entry };

    ghost count: { Self → ℕ };

    // How many meters there are.
    fn meter_count(&self) -> usize
        ensures { result ≡ count self.now };

    // What counts for a meter in a period.
    fn entry_at(&self, index: usize, period: u8) -> Entry
        ensures { result ≡ entries self.now index period };
}
