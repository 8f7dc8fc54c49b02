// A lawful meter record, and nothing that is none.
ghost use Rattle.std.specs.Prelude.{◌≡◌};
ghost use Rattle.meters.specs.Lawful.{Lawful};

use crate::row::MeterRow;

// A meter's record that keeps the limits of every number in it, and has a connection that its segment can have.
#[derive(Clone, Copy, Debug, PartialEq, Eq)]
pub struct Meter {
    pub(crate) row: MeterRow,
    ghost lawful: { Lawful row },
}

impl Meter {
    // The record as it was handed over.
    pub fn row(self) -> MeterRow
        ensures { result ≡ self.row }
    {
        self.row
    }
}
