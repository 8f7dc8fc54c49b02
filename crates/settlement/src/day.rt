// A Settlement Day.
ghost use Rattle.std.specs.Prelude.{◌≡◌};
ghost use Rattle.rules.specs.declared.state.State.TheVariants.{New};

use rules::state::State;

// Its state, its number of periods P and its volume limit V. What P and V are is looked at by each call.
#[derive(Clone, Copy)]
pub struct Day {
    pub(crate) state: State,
    pub(crate) periods: u8,
    pub(crate) limit: u64,
}

// What a call that was not turned down has done: it is done, or a delivery was superseded and nothing changed.
#[derive(Clone, Copy, Debug, PartialEq, Eq)]
pub enum Outcome {
    Done,
    Superseded,
}

impl Day {
    // A new day.
    pub fn new(periods: u8, limit: u64) -> Day
        ensures { (result.state ≡ New) × (result.periods ≡ periods) × (result.limit ≡ limit) }
    {
        Day {
            state: State::New,
            periods,
            limit,
        }
    }

    // Its state.
    pub fn state(&self) -> State
        ensures { result ≡ self.now.state }
    {
        self.state
    }
}
