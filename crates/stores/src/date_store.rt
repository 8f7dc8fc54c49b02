// A store of one UTC date in lent memory, however the readings lie there.
ghost use Rattle.std.specs.Prelude.{◌≡◌, ℕ, ◌*◌, ◌/◌, length, is_ok, if◌then◌else◌, None};
ghost use Rattle.stores.specs.Grid.{one, Put};
ghost use Rattle.stores.specs.Date.{place_of};
ghost use Rattle.stores.specs.Layout.{meters_in, grid_in, blanked};

use crate::date::{PERIODS, meters_of, place_in};
use crate::layout::Layout;
use crate::store::Store;
use market::clock::UtcPeriod;
use market::refusal::Refusal;
use readings::reading::Reading;

// One UTC date in cells that are lent.
#[derive(Drop)]
pub struct DateStore<'a, L: Layout> {
    cells: &'a mut [L::Cell],
}

// How many meters find room in so many cells.
fn room_in<L: Layout>(cells: usize) -> usize
    ensures { result ≡ cells / (48 * L.CELLS) }
{
    cells / (PERIODS as usize * L::CELLS)
}

impl<'a, L: Layout> DateStore<'a, L> {
    // Opens a store over cells: those of its meters are blanked, the remainder is untouched.
    pub fn open(cells: &'a mut [L::Cell]) -> DateStore<'a, L>
        ensures memory { result.cells.now ≡ blanked L.CELLS L.blank cells.old }
        ensures empty { (i j : ℕ) → grid_in L.CELLS L.shown result.cells.now i j ≡ None }
        ensures lent { result.cells.ghost_name ≡ cells.entry.ghost_name }
    {
        let count = meters_of(room_in::<L>(cells.len())) * PERIODS as usize * L::CELLS;
        L::blank(&mut cells[..count]);
        DateStore { cells }
    }
}

impl<'a, L: Layout> Store for DateStore<'a, L> {
    type Period = UtcPeriod;

    ghost grid = { λ s. grid_in L.CELLS L.shown s.cells.now };

    ghost meters = { λ s. meters_in L.CELLS (length s.cells.now) };

    ghost periods = { λ _. 48 };

    ghost fixed = { λ s. one s.cells.ghost_name };

    fn meter_count(&self) -> usize {
        meters_of(room_in::<L>(self.cells.len()))
    }

    fn period_count(&self) -> u8 {
        PERIODS
    }

    fn show(&self, meter: usize, period: UtcPeriod) -> Option<Reading> {
        let place = place_in(room_in::<L>(self.cells.len()), meter, period)?;
        L::show(self.cells, place)
    }

    fn put(&mut self, meter: usize, period: UtcPeriod, reading: Reading) -> Result<(), Refusal>
        ensures grid { Put (λ s. grid_in L.CELLS L.shown s.cells.now) (λ s. meters_in L.CELLS (length s.cells.now)) (λ _. 48) (λ s. one s.cells.ghost_name) self.old self.new meter period.0 reading result }
        ensures memory { self.new.cells.now ≡ (if is_ok result then L.written self.old.cells.now (place_of meter period.0) reading else self.old.cells.now) }
    {
        let place = place_in(room_in::<L>(self.cells.len()), meter, period).ok_or(Refusal::NoSuch)?;
        L::write(self.cells, place, reading);
        Ok(())
    }
}
