// How the readings of a UTC date lie in memory.
ghost use Rattle.std.specs.Prelude.{◌≡◌, ℕ, List, length, Option, replicate};
ghost use Rattle.readings.specs.declared.reading.Reading.{Reading};
ghost use Rattle.stores.specs.Layout.{Shown, Written, LayoutLaws};

use readings::reading::Reading;

// A layout gives each place so many cells of memory, and says what they show and how a reading is written there. All that is said of it
// is said of the cells.
pub trait Layout {
    type Cell: Copy;

    // The cells of a place.
    const CELLS: usize;

    ghost CELLS: { ℕ };

    ghost blank: { Self.Cell };

    ghost shown: { List Self.Cell → ℕ → Option Reading };

    ghost written: { List Self.Cell → ℕ → Reading → List Self.Cell };

    ghost laws: { LayoutLaws CELLS blank shown written };

    // Makes cells blank.
    fn blank(cells: &mut [Self::Cell])
        ensures { cells.new ≡ replicate (length cells.old) blank };

    // What a place shows; nothing where the cells lack it.
    fn show(cells: &[Self::Cell], place: usize) -> Option<Reading>
        ensures { Shown CELLS shown cells.now place result };

    // Writes a reading at a place; where the cells lack it, nothing is changed.
    fn write(cells: &mut [Self::Cell], place: usize, reading: Reading)
        ensures { Written CELLS written cells.old place reading cells.new };
}
