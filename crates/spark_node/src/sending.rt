ghost use Rattle.std.specs.Prelude.{◌≡◌, ◌++◌, [], ◌∷◌, ◌<◌, IfOk, OnOk, None, true};
ghost use Rattle.or_actor.specs.Fits.{link_number_end};
ghost use Rattle.or_base.specs.declared.message.Msg.TheVariants.{Hello, Handshake};
ghost use Rattle.spark_node.specs.Spark.{over, heard_in, hello, tell_up, tell_down, told_on_entry, hello_back, sent_at_tick};

use crate::neighbour::{HeardNode, Neighbour};
use or_actor::{FIRST_LINK_PORT, LINK_MONITOR_PORT, LinkEnd, Outbox};
use or_base::{Item, Msg, Name, NoMemory};
use spark_fsm::State;

/// Sends a message of the node out over the link.
pub fn send_over(me: &Name, end: &LinkEnd, msg: Msg, out: &mut Outbox) -> Result<(), NoMemory>
    requires { end.now.link < link_number_end }
    ensures { OnOk result (out.new ≡ out.old ++ over me.now end.now msg ∷ []) }
{
    let link = end.link;
    let from = me.copied()?;
    out.send(FIRST_LINK_PORT + link, Item::Net { link, from, msg })?;
    Ok(())
}

/// The node that a hello says it hears.
fn heard_in(state: State, peer: &Option<HeardNode>) -> Result<Option<Name>, NoMemory>
    ensures { IfOk result (λ heard. heard ≡ heard_in state peer.now) }
{
    match (state, peer) {
        (State::Idle, _) | (_, None) => Ok(None),
        (_, Some(peer)) => Ok(Some(peer.name.copied()?)),
    }
}

/// The hello of the node to this neighbour.
fn hello(end: &LinkEnd, neighbour: &Neighbour) -> Result<Msg, NoMemory>
    ensures { IfOk result (λ msg. msg ≡ hello end.now neighbour.now) }
{
    let iface = end.own_if.copied()?;
    let heard = heard_in(neighbour.state, &neighbour.peer)?;
    let restarting = false;
    Ok(Msg::Hello {
        iface,
        heard,
        restarting,
    })
}

/// Says hello.
pub fn send_hello(
    me: &Name,
    end: &LinkEnd,
    neighbour: &Neighbour,
    out: &mut Outbox,
) -> Result<(), NoMemory>
    requires { end.now.link < link_number_end }
    ensures { OnOk result (out.new ≡ out.old ++ over me.now end.now (hello end.now neighbour.now) ∷ []) }
{
    let msg = hello(end, neighbour)?;
    send_over(me, end, msg, out)
}

/// Says that the node restarts.
pub fn send_restarting(me: &Name, end: &LinkEnd, out: &mut Outbox) -> Result<(), NoMemory>
    requires { end.now.link < link_number_end }
    ensures { OnOk result (out.new ≡ out.old ++ over me.now end.now (Hello end.now.own_if None true) ∷ []) }
{
    let msg = Msg::Hello {
        iface: end.own_if.copied()?,
        heard: None,
        restarting: true,
    };
    send_over(me, end, msg, out)
}

/// Shakes hands.
pub fn send_handshake(
    me: &Name,
    end: &LinkEnd,
    done: bool,
    out: &mut Outbox,
) -> Result<(), NoMemory>
    requires { end.now.link < link_number_end }
    ensures { OnOk result (out.new ≡ out.old ++ over me.now end.now (Handshake end.now.own_if done) ∷ []) }
{
    let msg = Msg::Handshake {
        iface: end.own_if.copied()?,
        done,
    };
    send_over(me, end, msg, out)
}

/// Tells LinkMonitor of the neighbour, where a node was heard.
fn tell_up(end: &LinkEnd, peer: &Option<HeardNode>, out: &mut Outbox) -> Result<(), NoMemory>
    ensures { OnOk result (out.new ≡ out.old ++ tell_up end.now peer.now) }
{
    if let Some(heard) = peer {
        let item = Item::NeighbourUp {
            link: end.link,
            peer: heard.name.copied()?,
            peer_if: heard.interface.copied()?,
        };
        out.send(LINK_MONITOR_PORT, item)?;
    }
    Ok(())
}

/// Tells LinkMonitor that the neighbour is gone, where it was told of it.
pub fn tell_down(end: &LinkEnd, neighbour: &Neighbour, out: &mut Outbox) -> Result<(), NoMemory>
    ensures { OnOk result (out.new ≡ out.old ++ tell_down end.now neighbour.now) }
{
    if neighbour.is_told {
        out.send(LINK_MONITOR_PORT, Item::NeighbourDown { link: end.link })?;
    }
    Ok(())
}

/// Tells LinkMonitor what it has to know as the neighbour enters a state.
pub fn tell_entry(
    end: &LinkEnd,
    state: State,
    neighbour: &Neighbour,
    out: &mut Outbox,
) -> Result<(), NoMemory>
    ensures { OnOk result (out.new ≡ out.old ++ told_on_entry end.now state neighbour.now) }
{
    match state {
        State::Idle | State::Warm => tell_down(end, neighbour, out),
        State::Established => tell_up(end, &neighbour.peer, out),
        State::Negotiate | State::Restart => Ok(()),
    }
}

/// Answers a hello that led to the neighbour's state.
pub fn answer_hello(
    me: &Name,
    end: &LinkEnd,
    neighbour: &Neighbour,
    out: &mut Outbox,
) -> Result<(), NoMemory>
    requires { end.now.link < link_number_end }
    ensures { OnOk result (out.new ≡ out.old ++ hello_back me.now end.now neighbour.now) }
{
    send_hello(me, end, neighbour, out)?;
    if let State::Negotiate = neighbour.state {
        send_handshake(me, end, false, out)?;
    }
    Ok(())
}

/// Sends what goes out over a link at each tick.
pub fn send_at_tick(
    me: &Name,
    end: &LinkEnd,
    neighbour: &Neighbour,
    out: &mut Outbox,
) -> Result<(), NoMemory>
    requires { end.now.link < link_number_end }
    ensures { OnOk result (out.new ≡ out.old ++ sent_at_tick me.now end.now neighbour.now) }
{
    send_hello(me, end, neighbour, out)?;
    if let State::Established = neighbour.state {
        send_over(me, end, Msg::Heartbeat, out)?;
    }
    Ok(())
}
