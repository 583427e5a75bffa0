//! Spark's state machine, pair by pair, and a neighbour that comes, restarts and is lost.

use crate::fixtures::name;
use State::{Established, Idle, Negotiate, Restart, Warm};
use or_actor::{LinkEnd, Module, Outbox, Output};
use or_base::{Item, Msg, NoMemory};
use spark_fsm::{Event, State, next};
use spark_node::SparkModule;
use std::alloc::Global;
use std::test::Fail;

const STATES: [State; 5] = [Idle, Warm, Negotiate, Established, Restart];

const EVENTS: [Event; 9] = [
    Event::HelloWithUs,
    Event::HelloWithoutUs,
    Event::HelloRestarting,
    Event::Handshake,
    Event::HandshakeBad,
    Event::Heartbeat,
    Event::NegotiateTimer,
    Event::HoldTimer,
    Event::RestartTimer,
];

/// For each state, in the order above, the state behind each event.
const NEXT: [[State; 9]; 5] = [
    [Warm, Warm, Warm, Idle, Idle, Idle, Idle, Idle, Idle],
    [Negotiate, Warm, Warm, Warm, Warm, Warm, Warm, Warm, Warm],
    [
        Negotiate,
        Negotiate,
        Negotiate,
        Established,
        Warm,
        Negotiate,
        Warm,
        Negotiate,
        Negotiate,
    ],
    [
        Established,
        Idle,
        Restart,
        Established,
        Established,
        Established,
        Established,
        Idle,
        Established,
    ],
    [
        Negotiate, Restart, Restart, Restart, Restart, Restart, Restart, Restart, Idle,
    ],
];

#[test]
fn each_event_leads_to_the_stated_state(rt: HostRuntime) -> Result<(), Fail> {
    for (state, row) in STATES.iter().zip(NEXT.iter()) {
        for (event, behind) in EVENTS.iter().zip(row.iter()) {
            assert!(rt; next(*state, *event) == *behind);
        }
    }
    Ok(())
}

/// Spark of node a, with link 0 to b at the interface `if-a`.
fn spark_of_a(alloc: Global) -> Result<SparkModule, NoMemory> {
    let mut ends = Vec::new(alloc);
    ends.push(LinkEnd {
        link: 0,
        other: name(alloc, "b")?,
        own_if: name(alloc, "if-a")?,
        metric: 1,
    })?;
    SparkModule::new(alloc, name(alloc, "a")?, ends)
}

/// A message of b on link 0.
fn from_b(alloc: Global, msg: Msg) -> Result<Item, NoMemory> {
    Ok(Item::Net {
        link: 0,
        from: name(alloc, "b")?,
        msg,
    })
}

/// A hello of b from the interface `if-b`.
fn hello_of_b(alloc: Global, heard: Option<&str>, restarting: bool) -> Result<Item, NoMemory> {
    let heard = match heard {
        Some(node) => Some(name(alloc, node)?),
        None => None,
    };
    let iface = name(alloc, "if-b")?;
    from_b(
        alloc,
        Msg::Hello {
            iface,
            heard,
            restarting,
        },
    )
}

/// A message in words.
fn message_in_words(alloc: Global, msg: &Msg) -> Result<String, NoMemory> {
    let words = match msg {
        Msg::Hello {
            iface,
            heard,
            restarting,
        } => {
            let heard = match heard {
                Some(node) => node.as_str(),
                None => "none",
            };
            let iface = iface.as_str();
            format!(in alloc; "Hello {iface} heard {heard} restarting {restarting}")?
        }
        Msg::Handshake { iface, done } => {
            let iface = iface.as_str();
            format!(in alloc; "Handshake {iface} done {done}")?
        }
        Msg::Heartbeat => String::from_str(alloc, "Heartbeat")?,
        _ => String::from_str(alloc, "no message of Spark")?,
    };
    Ok(words)
}

/// An output in words, with its port.
fn output_in_words(alloc: Global, output: &Output) -> Result<String, NoMemory> {
    let Output::To { lane, item } = output;
    let words = match item {
        Item::Net { link, msg, .. } => {
            let words = message_in_words(alloc, msg)?;
            let words = words.as_str();
            format!(in alloc; "{lane} link {link} {words}; ")?
        }
        Item::NeighbourUp {
            link,
            peer,
            peer_if,
        } => {
            let peer = peer.as_str();
            let peer_if = peer_if.as_str();
            format!(in alloc; "{lane} NeighbourUp {link} {peer} {peer_if}; ")?
        }
        Item::NeighbourDown { link } => format!(in alloc; "{lane} NeighbourDown {link}; ")?,
        _ => String::from_str(alloc, "another item; ")?,
    };
    Ok(words)
}

/// What a turn with the item sends, in words: the first four outputs, and no turn of the tests sends more.
fn turn_in_words(alloc: Global, spark: &mut SparkModule, item: Item) -> Result<String, NoMemory> {
    let mut words = String::new(alloc);
    let mut out = Outbox::new(alloc);
    if spark.fits(&item) {
        let _found = spark.turn(0, item, &mut out)?;
    }
    for _output in 0..4 {
        if let Some(output) = out.take_first() {
            let more = output_in_words(alloc, &output)?;
            words.push_str(more.as_str())?;
        }
    }
    Ok(words)
}

#[test]
fn a_neighbour_comes_restarts_and_is_lost(rt: HostRuntime) -> Result<(), Fail> {
    let alloc = rt.alloc();
    let mut spark = spark_of_a(alloc)?;
    let said = turn_in_words(alloc, &mut spark, Item::LinkUp { link: 0 })?;
    assert!(rt; said.as_str() == "8 link 0 Hello if-a heard none restarting false; ");
    let said = turn_in_words(alloc, &mut spark, hello_of_b(alloc, None, false)?)?;
    assert!(rt; said.as_str() == "8 link 0 Hello if-a heard b restarting false; ");
    let said = turn_in_words(alloc, &mut spark, hello_of_b(alloc, Some("a"), false)?)?;
    assert!(rt;
        said.as_str()
            == "8 link 0 Hello if-a heard b restarting false; 8 link 0 Handshake if-a done false; "
    );
    let iface = name(alloc, "if-b")?;
    let done = false;
    let handshake = from_b(alloc, Msg::Handshake { iface, done })?;
    let said = turn_in_words(alloc, &mut spark, handshake)?;
    assert!(rt; said.as_str() == "2 NeighbourUp 0 b if-b; 8 link 0 Handshake if-a done true; ");
    let said = turn_in_words(alloc, &mut spark, hello_of_b(alloc, None, true)?)?;
    assert!(rt; said.as_str() == "8 link 0 Hello if-a heard b restarting false; ");
    let said = turn_in_words(alloc, &mut spark, Item::Tick { at: 29_999 })?;
    assert!(rt; said.as_str() == "8 link 0 Hello if-a heard b restarting false; ");
    let said = turn_in_words(alloc, &mut spark, Item::Tick { at: 30_000 })?;
    assert!(rt;
        said.as_str() == "2 NeighbourDown 0; 8 link 0 Hello if-a heard none restarting false; "
    );
    Ok(())
}
