ghost use Rattle.std.specs.Prelude.{◌≡◌, ◌<◌};
ghost use Rattle.or_actor.specs.Ports.{end_b_ports};
ghost use Rattle.net_link.specs.End.{other_end, port_at, store_port_of, spark_port_of, port_for};

use or_actor::{END_B_PORTS, SPARK_PORT, STORE_PORT};
use or_base::Msg;

/// One of the two ends of a link.
#[derive(Clone, Copy)]
pub enum End {
    A,
    B,
}

/// The end that isn't this one.
pub fn other_end(end: End) -> End
    ensures { result ≡ other_end end }
{
    match end {
        End::A => End::B,
        End::B => End::A,
    }
}

/// The link's port for the module of an end that has this port at end a, where each port is below `END_B_PORTS`.
fn port_at(end: End, port: u32) -> u32
    requires { port < end_b_ports }
    ensures { result ≡ port_at end port }
{
    match end {
        End::A => port,
        End::B => END_B_PORTS + port,
    }
}

/// The link's port for the store of an end.
pub fn store_port_of(end: End) -> u32
    ensures { result ≡ store_port_of end }
{
    port_at(end, STORE_PORT)
}

/// The link's port for Spark of an end.
pub fn spark_port_of(end: End) -> u32
    ensures { result ≡ spark_port_of end }
{
    port_at(end, SPARK_PORT)
}

/// The link's port for the module of an end for which the message is: Spark's messages are for Spark, all others for the
/// store.
pub fn port_for(end: End, msg: &Msg) -> u32
    ensures { result ≡ port_for end msg.now }
{
    match msg {
        Msg::Hello { .. } | Msg::Handshake { .. } | Msg::Heartbeat => spark_port_of(end),
        Msg::Flood { .. }
        | Msg::Dump { .. }
        | Msg::Reply { .. }
        | Msg::Push { .. }
        | Msg::Ack { .. } => store_port_of(end),
    }
}
