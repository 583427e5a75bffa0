ghost use Rattle.std.specs.Prelude.{◌≡◌, ◌++◌, ◌<◌, OnOk, if◌then◌else◌};
ghost use Rattle.or_actor.specs.Fits.{link_number_end};
ghost use Rattle.spark_fsm.specs.declared.event.Event.TheVariants.{Handshake, HandshakeBad};
ghost use Rattle.spark_fsm.specs.declared.state.State.TheVariants.{Established};
ghost use Rattle.spark_fsm.specs.Next.{is_moved_by, is_same_state};
ghost use Rattle.spark_node.specs.Spark.{is_heard_in, hello_event, is_interface_of};

use crate::neighbour::{Neighbour, is_over, renews, time_of};
use crate::sending::{
    answer_hello, send_at_tick, send_handshake, send_restarting, tell_down, tell_entry,
};
use or_actor::{LinkEnd, Outbox};
use or_base::{Msg, Name, NoMemory};
use spark_fsm::{Event, State, next};

/// The event leads from the state to another.
fn is_moved_by(state: State, event: Event) -> bool
    ensures { result ≡ is_moved_by state event }
{
    next(state, event) != state
}

/// The neighbour is established.
fn is_established(state: State) -> bool
    ensures { result ≡ is_same_state state Established }
{
    matches!(state, State::Established)
}

/// The node is the one that a hello says it hears.
fn is_heard_in(heard: &Option<Name>, me: &Name) -> bool
    ensures { result ≡ is_heard_in heard.now me.now }
{
    match heard {
        Some(name) => name.as_str() == me.as_str(),
        None => false,
    }
}

/// What a hello is to the node.
fn hello_event(me: &Name, heard: &Option<Name>, restarting: bool) -> Event
    ensures { result ≡ hello_event me.now heard.now restarting }
{
    if restarting {
        Event::HelloRestarting
    } else if is_heard_in(heard, me) {
        Event::HelloWithUs
    } else {
        Event::HelloWithoutUs
    }
}

impl Neighbour {
    ghost use Rattle.spark_node.specs.Spark.{happen, take_hello, take_handshake, take_message, expire, take_tick, begin_anew};

    /// An event: the neighbour enters the next state where that is another.
    #[tactic(auto, unfolding(crate::specs::Spark::happen))]
    fn happen(
        &mut self,
        now: u64,
        end: &LinkEnd,
        event: Event,
        out: &mut Outbox,
    ) -> Result<(), NoMemory>
        ensures neighbour { OnOk result (self.new ≡ (happen now end.now self.old event).neighbour) }
        ensures sent { OnOk result (out.new ≡ out.old ++ (happen now end.now self.old event).sent) }
    {
        if is_moved_by(self.state, event) {
            let state = next(self.state, event);
            tell_entry(end, state, self, out)?;
            self.enter(now, state);
        } else if renews(self.state, event) {
            self.since = now;
        }
        Ok(())
    }

    /// A hello: its sender with its interface is the peer from now on. Where it leads to another state it is answered.
    #[tactic(auto, unfolding(crate::specs::Spark::take_hello))]
    fn take_hello(
        &mut self,
        me: &Name,
        now: u64,
        end: &LinkEnd,
        from: &Name,
        interface: &Name,
        heard: &Option<Name>,
        restarting: bool,
        out: &mut Outbox,
    ) -> Result<(), NoMemory>
        requires { end.now.link < link_number_end }
        ensures neighbour { OnOk result (self.new ≡ (take_hello me.now now end.now self.old from.now interface.now heard.now restarting).neighbour) }
        ensures sent { OnOk result (out.new ≡ out.old ++ (take_hello me.now now end.now self.old from.now interface.now heard.now restarting).sent) }
    {
        let event = hello_event(me, heard, restarting);
        let is_answered = is_moved_by(self.state, event);
        self.know(from, interface)?;
        self.happen(now, end, event, out)?;
        if is_answered {
            answer_hello(me, end, self, out)?;
        }
        Ok(())
    }

    /// A handshake: where it isn't the sender's last and the neighbour is established, it is answered.
    #[tactic(auto, unfolding(crate::specs::Spark::take_handshake))]
    fn take_handshake(
        &mut self,
        me: &Name,
        now: u64,
        end: &LinkEnd,
        interface: &Name,
        done: bool,
        out: &mut Outbox,
    ) -> Result<(), NoMemory>
        requires { end.now.link < link_number_end }
        ensures neighbour { OnOk result (self.new ≡ (take_handshake me.now now end.now self.old interface.now done).neighbour) }
        ensures sent { OnOk result (out.new ≡ out.old ++ (take_handshake me.now now end.now self.old interface.now done).sent) }
    {
        let event = self.handshake_event(interface);
        self.happen(now, end, event, out)?;
        if !done && is_established(self.state) {
            send_handshake(me, end, true, out)?;
        }
        Ok(())
    }

    /// What a handshake from this interface is.
    fn handshake_event(&self, interface: &Name) -> Event
        ensures { result ≡ (if is_interface_of self.now.peer interface.now then Handshake else HandshakeBad) }
    {
        if self.is_at(interface) {
            Event::Handshake
        } else {
            Event::HandshakeBad
        }
    }

    /// A message from the node. Those of stores are nothing to Spark.
    pub fn take_message(
        &mut self,
        me: &Name,
        now: u64,
        end: &LinkEnd,
        from: &Name,
        msg: &Msg,
        out: &mut Outbox,
    ) -> Result<(), NoMemory>
        requires { end.now.link < link_number_end }
        ensures neighbour { OnOk result (self.new ≡ (take_message me.now now end.now self.old from.now msg.now).neighbour) }
        ensures sent { OnOk result (out.new ≡ out.old ++ (take_message me.now now end.now self.old from.now msg.now).sent) }
    {
        match msg {
            Msg::Hello {
                iface,
                heard,
                restarting,
            } => self.take_hello(me, now, end, from, iface, heard, *restarting, out),
            Msg::Handshake { iface, done } => self.take_handshake(me, now, end, iface, *done, out),
            Msg::Heartbeat => self.happen(now, end, Event::Heartbeat, out),
            _of_stores => Ok(()),
        }
    }

    /// The time of its state may have passed.
    fn expire(&mut self, now: u64, end: &LinkEnd, out: &mut Outbox) -> Result<(), NoMemory>
        ensures neighbour { OnOk result (self.new ≡ (expire now end.now self.old).neighbour) }
        ensures sent { OnOk result (out.new ≡ out.old ++ (expire now end.now self.old).sent) }
    {
        if let Some((time, event)) = time_of(self.state)
            && is_over(now, self.since, time)
        {
            self.happen(now, end, event, out)?;
        }
        Ok(())
    }

    /// The moment is this.
    #[tactic(auto, unfolding(crate::specs::Spark::take_tick))]
    pub fn take_tick(
        &mut self,
        me: &Name,
        now: u64,
        end: &LinkEnd,
        out: &mut Outbox,
    ) -> Result<(), NoMemory>
        requires { end.now.link < link_number_end }
        ensures neighbour { OnOk result (self.new ≡ (take_tick me.now now end.now self.old).neighbour) }
        ensures sent { OnOk result (out.new ≡ out.old ++ (take_tick me.now now end.now self.old).sent) }
    {
        self.expire(now, end, out)?;
        send_at_tick(me, end, self, out)
    }

    /// This node restarts: it says so, and knows nothing of the neighbour any more.
    pub fn begin_anew(&mut self, me: &Name, end: &LinkEnd, out: &mut Outbox) -> Result<(), NoMemory>
        requires { end.now.link < link_number_end }
        ensures neighbour { OnOk result (self.new ≡ (begin_anew me.now end.now self.old).neighbour) }
        ensures sent { OnOk result (out.new ≡ out.old ++ (begin_anew me.now end.now self.old).sent) }
    {
        send_restarting(me, end, out)?;
        tell_down(end, self, out)?;
        *self = Neighbour::unheard();
        Ok(())
    }
}
