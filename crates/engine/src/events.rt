// What may happen to an engine, and in which condition.
ghost use Rattle.std.specs.Prelude.{◌≡◌};
ghost use Rattle.engine.specs.Events.{admitted, after_event};

use calls::{Condition, Denial, Ending};

// The most states that one advance may be asked for.
pub const MOST_ASKED: usize = 1000;

// What is asked of an engine.
#[derive(Clone, Copy)]
pub(crate) enum Event {
    Load,
    Begin,
    // so many states more; the recorder is the run's or not
    Advance(usize, bool),
    Abandon,
}

// Whether an event is allowed in a condition. To abandon ends the run.
pub(crate) fn admit(condition: &mut Condition, event: Event) -> Result<(), Denial>
    ensures answer { result ≡ admitted condition.old event }
    ensures after { condition.new ≡ after_event condition.old event }
{
    match (&mut *condition, event) {
        (Condition::Open, Event::Load | Event::Begin) => Err(Denial::RunIsOpen),
        (Condition::Open, Event::Advance(states, own)) => {
            if !(1..=MOST_ASKED).contains(&states) {
                Err(Denial::WrongStates)
            } else if !own {
                Err(Denial::OtherRecorder)
            } else {
                Ok(())
            }
        }
        (Condition::Open, Event::Abandon) => {
            *condition = Condition::Ended(Ending::Abandoned);
            Ok(())
        }
        (Condition::Idle | Condition::Ended(_), Event::Load | Event::Begin) => Ok(()),
        (Condition::Idle | Condition::Ended(_), _) => Err(Denial::NoRunIsOpen),
    }
}
