//! LinkMonitor and PrefixManager: what the items of a small story have them tell the store, with the texts of records as
//! they are stated for readers of records.

use crate::fixtures::name;
use link_monitor::LinkMonitorModule;
use or_actor::{LinkEnd, Module, Outbox, Output};
use or_base::{Item, NoMemory, PrefixEntry};
use or_prefix::read_prefix;
use prefix_manager::PrefixManagerModule;
use std::alloc::Global;
use std::process::Abort;
use std::test::Fail;

/// The lifetime of the records, in milliseconds.
const TTL: u64 = 300_000;

/// An output in words, with its port.
fn output_in_words(alloc: Global, output: &Output) -> Result<String, NoMemory> {
    let Output::To { lane, item } = output;
    let words = match item {
        Item::PeerUp { link, peer } => {
            let peer = peer.as_str();
            format!(in alloc; "{lane} PeerUp {link} {peer}; ")?
        }
        Item::PeerDown { link } => format!(in alloc; "{lane} PeerDown {link}; ")?,
        Item::Persist {
            key,
            value,
            ttl: Some(TTL),
        } => {
            let key = key.as_str();
            let text = str::from_utf8(value.as_slice()).unwrap_or("no text");
            format!(in alloc; "{lane} {key} {text}; ")?
        }
        _ => String::from_str(alloc, "another item; ")?,
    };
    Ok(words)
}

/// What was sent, in words: the first three outputs, and no turn of the tests sends more.
fn sent_in_words(alloc: Global, mut out: Outbox) -> Result<String, NoMemory> {
    let mut words = String::new(alloc);
    for _output in 0..3 {
        if let Some(output) = out.take_first() {
            let more = output_in_words(alloc, &output)?;
            words.push_str(more.as_str())?;
        }
    }
    Ok(words)
}

/// A turn of LinkMonitor with the item sends what these words say.
fn monitor_sends(
    rt: &impl Abort,
    alloc: Global,
    monitor: &mut LinkMonitorModule,
    item: Item,
    words: &str,
) -> Result<(), Fail> {
    let mut out = Outbox::new(alloc);
    if monitor.fits(&item) {
        let _found = monitor.turn(0, item, &mut out)?;
    }
    let sent = sent_in_words(alloc, out)?;
    assert_eq!(rt; sent.as_str(), words);
    Ok(())
}

/// A turn of PrefixManager with the item sends what these words say.
fn manager_sends(
    rt: &impl Abort,
    alloc: Global,
    manager: &mut PrefixManagerModule,
    item: Item,
    words: &str,
) -> Result<(), Fail> {
    let mut out = Outbox::new(alloc);
    if manager.fits(&item) {
        let _found = manager.turn(0, item, &mut out)?;
    }
    let sent = sent_in_words(alloc, out)?;
    assert_eq!(rt; sent.as_str(), words);
    Ok(())
}

/// The end at b of a link to another node.
fn end(alloc: Global, link: u32, other: &str, own_if: &str) -> Result<LinkEnd, NoMemory> {
    Ok(LinkEnd {
        link,
        other: name(alloc, other)?,
        own_if: name(alloc, own_if)?,
        metric: 1,
    })
}

/// LinkMonitor of node b, with link 0 to c and link 1 to a.
fn monitor_of_b(alloc: Global) -> Result<LinkMonitorModule, NoMemory> {
    let mut ends = Vec::new(alloc);
    ends.push(end(alloc, 0, "c", "if-c")?)?;
    ends.push(end(alloc, 1, "a", "if-a")?)?;
    LinkMonitorModule::new(alloc, name(alloc, "b")?, ends, Some(TTL))
}

/// The neighbour is there, at its interface `if-b`.
fn neighbour_up(alloc: Global, link: u32, peer: &str) -> Result<Item, NoMemory> {
    Ok(Item::NeighbourUp {
        link,
        peer: name(alloc, peer)?,
        peer_if: name(alloc, "if-b")?,
    })
}

/// What LinkMonitor of b tells, as a neighbour comes, as b and the link are drained, as the link has another metric, and as
/// the neighbour is lost.
const STORY: [&str; 5] = [
    r#"4 PeerUp 1 a; 4 adj:b {"node":"b","overload":false,"adjacencies":[{"other":"a","if":"if-a","other_if":"if-b","metric":1,"overload":false}]}; "#,
    r#"4 adj:b {"node":"b","overload":true,"adjacencies":[{"other":"a","if":"if-a","other_if":"if-b","metric":1,"overload":false}]}; "#,
    r#"4 adj:b {"node":"b","overload":true,"adjacencies":[{"other":"a","if":"if-a","other_if":"if-b","metric":1,"overload":true}]}; "#,
    r#"4 adj:b {"node":"b","overload":true,"adjacencies":[{"other":"a","if":"if-a","other_if":"if-b","metric":7,"overload":true}]}; "#,
    r#"4 PeerDown 1; 4 adj:b {"node":"b","overload":true,"adjacencies":[]}; "#,
];

#[test]
fn a_neighbour_comes_and_goes(rt: HostRuntime) -> Result<(), Fail> {
    let alloc = rt.alloc();
    let mut monitor = monitor_of_b(alloc)?;
    let up = neighbour_up(alloc, 1, "a")?;
    monitor_sends(&rt, alloc, &mut monitor, up, STORY[0])?;
    monitor_sends(&rt, alloc, &mut monitor, Item::Drain { on: true }, STORY[1])?;
    let drained = Item::LinkDrain { link: 1, on: true };
    monitor_sends(&rt, alloc, &mut monitor, drained, STORY[2])?;
    let metric = Item::Metric { link: 1, metric: 7 };
    monitor_sends(&rt, alloc, &mut monitor, metric, STORY[3])?;
    let down = Item::NeighbourDown { link: 1 };
    monitor_sends(&rt, alloc, &mut monitor, down, STORY[4])?;
    Ok(())
}

/// What LinkMonitor of b tells as c comes, and then a, whose interface is less.
const ORDERED: [&str; 2] = [
    r#"4 PeerUp 0 c; 4 adj:b {"node":"b","overload":false,"adjacencies":[{"other":"c","if":"if-c","other_if":"if-b","metric":1,"overload":false}]}; "#,
    r#"4 PeerUp 1 a; 4 adj:b {"node":"b","overload":false,"adjacencies":[{"other":"a","if":"if-a","other_if":"if-b","metric":1,"overload":false},{"other":"c","if":"if-c","other_if":"if-b","metric":1,"overload":false}]}; "#,
];

#[test]
fn adjacencies_stand_in_the_order_of_interfaces(rt: HostRuntime) -> Result<(), Fail> {
    let alloc = rt.alloc();
    let mut monitor = monitor_of_b(alloc)?;
    // A link that b doesn't have changes nothing.
    let elsewhere = neighbour_up(alloc, 2, "d")?;
    monitor_sends(&rt, alloc, &mut monitor, elsewhere, "")?;
    let first = neighbour_up(alloc, 0, "c")?;
    monitor_sends(&rt, alloc, &mut monitor, first, ORDERED[0])?;
    let second = neighbour_up(alloc, 1, "a")?;
    monitor_sends(&rt, alloc, &mut monitor, second, ORDERED[1])?;
    Ok(())
}

/// An entry for the prefix that the text says, or another item where it says none.
fn advertise(text: &str) -> Item {
    match read_prefix(text.as_bytes()) {
        Ok(prefix) => Item::Advertise {
            entry: PrefixEntry {
                prefix,
                path: 1000,
                source: 100,
                distance: 0,
            },
        },
        Err(_fault) => Item::Up,
    }
}

/// The prefix that the text says is withdrawn, or it is another item where it says none.
fn withdraw(text: &str) -> Item {
    match read_prefix(text.as_bytes()) {
        Ok(prefix) => Item::Withdraw { prefix },
        Err(_fault) => Item::Up,
    }
}

/// What PrefixManager of b tells as it advertises 10.9.0.0/16, then 10.0.0.0/8 too, and as it withdraws the first.
const PREFIXES: [&str; 3] = [
    r#"4 prefix:b {"node":"b","entries":[{"prefix":"10.9.0.0/16","path":1000,"source":100,"distance":0}]}; "#,
    r#"4 prefix:b {"node":"b","entries":[{"prefix":"10.0.0.0/8","path":1000,"source":100,"distance":0},{"prefix":"10.9.0.0/16","path":1000,"source":100,"distance":0}]}; "#,
    r#"4 prefix:b {"node":"b","entries":[{"prefix":"10.0.0.0/8","path":1000,"source":100,"distance":0}]}; "#,
];

#[test]
fn prefixes_are_advertised_and_withdrawn(rt: HostRuntime) -> Result<(), Fail> {
    let alloc = rt.alloc();
    let mut manager = PrefixManagerModule::new(alloc, name(alloc, "b")?, Some(TTL))?;
    manager_sends(
        &rt,
        alloc,
        &mut manager,
        advertise("10.9.0.0/16"),
        PREFIXES[0],
    )?;
    manager_sends(&rt, alloc, &mut manager, advertise("10.9.0.0/16"), "")?;
    manager_sends(
        &rt,
        alloc,
        &mut manager,
        advertise("10.0.0.0/8"),
        PREFIXES[1],
    )?;
    manager_sends(
        &rt,
        alloc,
        &mut manager,
        withdraw("10.9.0.0/16"),
        PREFIXES[2],
    )?;
    manager_sends(&rt, alloc, &mut manager, Item::Drain { on: true }, "")?;
    Ok(())
}
