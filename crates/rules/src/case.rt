// What a call is judged on.

use crate::sizes::Sizes;
use crate::sources::Sources;
use crate::state::State;

// The state of the day, the sizes of what was handed over, and what the day is worked out from.
#[derive(Drop)]
pub struct Case<'a, S> {
    pub state: State,
    pub sizes: Sizes,
    pub sources: Sources<'a, S>,
}
