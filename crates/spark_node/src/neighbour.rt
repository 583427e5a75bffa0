ghost use Rattle.std.specs.Prelude.{◌≡◌, ◌+◌, Some, OnOk, nat_le, false, ◌&&◌};
ghost use Rattle.std.specs.Option.{option_map_or};
ghost use Rattle.std.specs.Str.{bytes_eq};
ghost use Rattle.spark_node.specs.Spark.{time_of, renews};

use or_base::{Name, NoMemory};
use spark_fsm::{Event, State};

/// How long a neighbour may take to shake hands, in milliseconds.
const NEGOTIATE_TIME: u64 = 5_000;

/// How long an established neighbour may go unheard.
const HOLD_TIME: u64 = 10_000;

/// How long a neighbour that restarts is kept.
const RESTART_TIME: u64 = 30_000;

/// The node that was heard on a link, and its interface there.
#[derive(Drop)]
pub struct HeardNode {
    pub name: Name,
    pub interface: Name,
}

/// What Spark knows of the neighbour on a link that is up.
#[derive(Drop)]
pub struct Neighbour {
    pub state: State,
    /// The node that was heard last, if one was.
    pub peer: Option<HeardNode>,
    /// Since when the timer of the state runs, in milliseconds.
    pub since: u64,
    /// LinkMonitor was told of it, and not since that it is gone.
    pub is_told: bool,
}

/// How long a neighbour may stay in a state without anything new, and what happens then.
pub fn time_of(state: State) -> Option<(u64, Event)>
    ensures { result ≡ time_of state }
{
    match state {
        State::Idle | State::Warm => None,
        State::Negotiate => Some((NEGOTIATE_TIME, Event::NegotiateTimer)),
        State::Established => Some((HOLD_TIME, Event::HoldTimer)),
        State::Restart => Some((RESTART_TIME, Event::RestartTimer)),
    }
}

/// The time has passed since that moment.
pub fn is_over(now: u64, since: u64, time: u64) -> bool
    ensures { result ≡ nat_le (since + time) now }
{
    now >= since && now - since >= time
}

/// The event tells that a neighbour in this state is there for some time more.
pub fn renews(state: State, event: Event) -> bool
    ensures { result ≡ renews state event }
{
    matches!(
        (state, event),
        (State::Established, Event::HelloWithUs | Event::Heartbeat)
    )
}

impl HeardNode {
    /// The node with this name was heard, from this interface.
    fn is(&self, name: &Name, interface: &Name) -> bool
        ensures { result ≡ (bytes_eq self.now.name name.now && bytes_eq self.now.interface interface.now) }
    {
        self.name.as_str() == name.as_str() && self.interface.as_str() == interface.as_str()
    }
}

impl Neighbour {
    ghost use Rattle.spark_node.specs.Spark.{unheard, enter, is_interface_of};

    /// A neighbour of which nothing was heard. It takes no memory.
    pub fn unheard() -> Neighbour
        ensures { result ≡ unheard }
    {
        Neighbour {
            state: State::Idle,
            peer: None,
            since: 0,
            is_told: false,
        }
    }

    /// It enters a state. It takes no memory.
    pub fn enter(&mut self, now: u64, state: State)
        ensures { self.new ≡ enter now state self.old }
    {
        self.state = state;
        self.since = now;
        match state {
            State::Idle => {
                self.peer = None;
                self.is_told = false;
            }
            State::Warm => self.is_told = false,
            State::Established => self.is_told = true,
            State::Negotiate | State::Restart => {}
        }
    }

    /// The node with this name and interface is the peer from now on. Names are copied only where it wasn't before.
    pub fn know(&mut self, name: &Name, interface: &Name) -> Result<(), NoMemory>
        ensures { OnOk result (self.new ≡ record self.old { peer = Some (record { name = name.now; interface = interface.now }) }) }
    {
        if !self.is_peer(name, interface) {
            let name = name.copied()?;
            let interface = interface.copied()?;
            self.peer = Some(HeardNode { name, interface });
        }
        Ok(())
    }

    /// The node with this name and interface is the peer.
    fn is_peer(&self, name: &Name, interface: &Name) -> bool
        ensures { result ≡ option_map_or (λ p. bytes_eq p.name name.now && bytes_eq p.interface interface.now) self.now.peer false }
    {
        match &self.peer {
            Some(peer) => peer.is(name, interface),
            None => false,
        }
    }

    /// The peer was heard from this interface.
    pub fn is_at(&self, interface: &Name) -> bool
        ensures { result ≡ is_interface_of self.now.peer interface.now }
    {
        match &self.peer {
            Some(peer) => peer.interface.as_str() == interface.as_str(),
            None => false,
        }
    }
}
