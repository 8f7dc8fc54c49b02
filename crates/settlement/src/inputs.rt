// What a day is worked out from, as it is handed over with a call.
ghost use Rattle.std.specs.Prelude.{◌≡◌};
ghost use Rattle.settlement.specs.World.{SameSources};

use meters::row::MeterRow;
use rules::sources::Sources;

// Beside the day and the accounts, and not in one struct with them: tried, and a caller's proof of what its parts hold afterwards did not close.
// A store with the records of its meters and the tables of factors and shapes, all of them lent: a call may change them.
#[derive(Drop)]
pub struct Inputs<'a, S> {
    pub store: &'a mut S,
    pub rows: &'a mut [MeterRow],
    pub factors: &'a mut [Option<u16>],
    pub shapes: &'a mut [Option<u32>],
}

impl<'a, S> Inputs<'a, S> {
    // Made of what is lent. A caller whose store itself holds loans makes its inputs so: by the fields they are beyond the check.
    pub fn new(
        store: &'a mut S,
        rows: &'a mut [MeterRow],
        factors: &'a mut [Option<u16>],
        shapes: &'a mut [Option<u32>],
    ) -> Inputs<'a, S>
        ensures { (result.store ≡ store.entry) × (result.rows ≡ rows.entry) × (result.factors ≡ factors.entry) × (result.shapes ≡ shapes.entry) }
    {
        Inputs {
            store,
            rows,
            factors,
            shapes,
        }
    }

    // The same, to be read.
    pub fn sources(&self) -> Sources<'_, S>
        ensures { SameSources self.entry.now result }
    {
        Sources {
            store: &*self.store,
            rows: &*self.rows,
            factors: &*self.factors,
            shapes: &*self.shapes,
        }
    }
}
