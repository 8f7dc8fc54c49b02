// The states of a day, and what leads from one to the other.
ghost use Rattle.std.specs.Prelude.{◌≡◌};
ghost use Rattle.rules.specs.States.{Advanced};

use market::refusal::Refusal;

// Before it is settled a day is new; a final day takes no more calls.
#[derive(Clone, Copy, Debug, PartialEq, Eq)]
pub enum State {
    New,
    Settled,
    Final,
}

// What happens to a day, by the call that does it.
#[derive(Clone, Copy, Debug, PartialEq, Eq)]
pub enum Event {
    Settle,
    Deliver,
    Amend,
    Factor,
    Shape,
    Close,
}

impl State {
    // The state advances by an event, or stays as it is where the state does not take the event.
    pub fn advance(&mut self, event: Event) -> Result<(), Refusal>
        ensures { Advanced self.old event self.new result }
    {
        match (*self, event) {
            (State::Final, _) | (State::New, Event::Close) => return Err(Refusal::State),
            (_, Event::Settle) => *self = State::Settled,
            (State::Settled, Event::Close) => *self = State::Final,
            (_, Event::Deliver | Event::Amend | Event::Factor | Event::Shape) => {}
        }
        Ok(())
    }
}
