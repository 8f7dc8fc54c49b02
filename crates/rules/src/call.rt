// The calls on a day.
ghost use Rattle.std.specs.Prelude.{◌≡◌};
ghost use Rattle.rules.specs.Asked.{asked, event_of};

use crate::revision::Revision;
use crate::state::Event;
use meters::row::MeterRow;
use readings::delivery::Delivery;
use stores::period::Period;

// A call with what is given with it: any numbers. Its periods are of one clock. A reading is given as a delivery, which is unchecked; in what is
// to be done for a call that was not turned down it is the reading that was delivered.
#[derive(Clone, Copy)]
pub enum Call<P, G> {
    Settle,
    Deliver { meter: usize, period: P, reading: G },
    Amend { meter: usize, row: MeterRow },
    Revise { period: P, revision: Revision },
    Close,
}

impl<P: Period> Call<P, Delivery> {
    // What it does to the state of its day.
    pub fn event(self) -> Event
        ensures { result ≡ event_of (asked P.number self) }
    {
        match self {
            Call::Settle => Event::Settle,
            Call::Deliver { .. } => Event::Deliver,
            Call::Amend { .. } => Event::Amend,
            Call::Revise {
                revision: Revision::Factor { .. },
                ..
            } => Event::Factor,
            Call::Revise {
                revision: Revision::Shape { .. },
                ..
            } => Event::Shape,
            Call::Close => Event::Close,
        }
    }
}
