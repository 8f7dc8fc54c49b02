// The sizes of what a call is handed.
ghost use Rattle.std.specs.Prelude.{◌≡◌, ◌*◌, Decides};

// How many totals were handed over for a report, and how many places the report has.
#[derive(Clone, Copy)]
pub struct Extent {
    pub totals: usize,
    pub places: usize,
}

impl Extent {
    // Whether there is one total for each of P periods and each place: what an account asks of its own totals, here of numbers alone.
    pub(crate) fn fits(self, periods: u8) -> bool
        ensures { Decides result (self.totals ≡ periods * self.places) }
    {
        self.totals as u128 == u128::from(periods) * self.places as u128
    }
}

// What a day was made with, P and V, and the extent of each report.
#[derive(Clone, Copy)]
pub struct Sizes {
    pub periods: u8,
    pub limit: u64,
    pub first: Extent,
    pub second: Extent,
}
