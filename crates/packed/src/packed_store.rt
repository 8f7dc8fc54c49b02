// The packed store.
ghost use Rattle.packed.specs.Layout.{shown_in, written_in};
ghost use Rattle.packed.specs.Laws.{packed_laws};

use crate::place::{read_place, write_place};
use readings::reading::Reading;
use stores::date_store::DateStore;
use stores::layout::Layout;

// The bytes of a place.
const BYTES_A_PLACE: usize = 9;

// Readings in bytes: nine to a place.
pub struct Packed;

impl Layout for Packed {
    type Cell = u8;

    const CELLS: usize = BYTES_A_PLACE;

    ghost CELLS = { 9 };

    ghost blank = { 0 };

    ghost shown = { shown_in };

    ghost written = { written_in };

    ghost laws = { packed_laws };

    fn blank(bytes: &mut [u8]) {
        bytes.fill(0);
    }

    fn show(bytes: &[u8], place: usize) -> Option<Reading> {
        if place < bytes.len() / BYTES_A_PLACE {
            read_place(bytes, place * BYTES_A_PLACE)
        } else {
            None
        }
    }

    fn write(bytes: &mut [u8], place: usize, reading: Reading) {
        if place < bytes.len() / BYTES_A_PLACE {
            write_place(bytes, place * BYTES_A_PLACE, reading);
        }
    }
}

// One UTC date in bytes that are lent.
pub type PackedStore<'a> = DateStore<'a, Packed>;

#[cfg(test)]
mod tests;
