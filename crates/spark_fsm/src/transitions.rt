ghost use Rattle.std.specs.Prelude.{◌≡◌};
ghost use Rattle.spark_fsm.specs.Next.{next};

use crate::event::Event;
use crate::state::State;

/// The state behind an event. An event that has no row of its own for a state changes nothing. It takes no memory.
pub fn next(state: State, event: Event) -> State
    ensures { result ≡ next state event }
{
    match (state, event) {
        (State::Idle, Event::HelloWithUs | Event::HelloWithoutUs | Event::HelloRestarting) => {
            State::Warm
        }
        (State::Warm, Event::HelloWithUs) => State::Negotiate,
        (State::Negotiate, Event::Handshake) => State::Established,
        (State::Negotiate, Event::NegotiateTimer | Event::HandshakeBad) => State::Warm,
        (State::Established, Event::HelloWithoutUs | Event::HoldTimer) => State::Idle,
        (State::Established, Event::HelloRestarting) => State::Restart,
        (State::Restart, Event::HelloWithUs) => State::Negotiate,
        (State::Restart, Event::RestartTimer) => State::Idle,
        (unchanged, _) => unchanged,
    }
}
