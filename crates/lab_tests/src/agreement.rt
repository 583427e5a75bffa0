//! What records of runs tell of full syncs: at which settles two stores are synced, and where one round was enough.

use net_record::{Record, SettleDone};
use net_scenario::read_scenario;
use net_world::round_robin;
use or_base::{JournalEntry, NoMemory, Origin, SyncDone};
use std::alloc::Global;
use std::test::Fail;

/// Two linked stores. The link drops the flood of a's set; a full sync brings the value to b, and another finds both as they
/// are.
pub const TWO_SYNCS: &str = r#"{"do":"lab","kind":"stores"}
{"do":"node","name":"a"}
{"do":"node","name":"b"}
{"do":"link","a":"a","b":"b"}
{"do":"settle","show":"none"}
{"do":"script","link":0,"from":"a","acts":["drop"]}
{"do":"settle","show":"none"}
{"do":"set","node":"a","key":"x","version":1,"hex":"01"}
{"do":"settle","show":"none"}
{"do":"sync","node":"a","link":0}
{"do":"settle","show":"stores"}
{"do":"sync","node":"a","link":0}
{"do":"settle","show":"stores"}
"#;

/// The value has too short a lifetime to be sent, so the full sync withholds it.
const WITHHELD: &str = r#"{"do":"lab","kind":"stores"}
{"do":"node","name":"a"}
{"do":"node","name":"b"}
{"do":"link","a":"a","b":"b"}
{"do":"settle","show":"none"}
{"do":"set","node":"a","key":"x","version":1,"hex":"01","ttl":1}
{"do":"settle","show":"none"}
{"do":"sync","node":"a","link":0}
{"do":"settle","show":"stores"}
"#;

/// The starter of a full sync restarts, and the one that starts behind that brings its value back.
const RESTARTED: &str = r#"{"do":"lab","kind":"stores"}
{"do":"node","name":"a"}
{"do":"node","name":"b"}
{"do":"link","a":"a","b":"b"}
{"do":"settle","show":"none"}
{"do":"set","node":"a","key":"x","version":1,"hex":"01"}
{"do":"settle","show":"none"}
{"do":"sync","node":"a","link":0}
{"do":"restart","node":"a"}
{"do":"settle","show":"stores"}
"#;

/// The record of a run that settles every phase.
pub fn record_of(alloc: Global, scenario: &str) -> Result<Record, NoMemory> {
    match read_scenario(alloc, scenario.as_bytes(), true) {
        Ok(scenario) => match round_robin(alloc, &scenario) {
            Ok(done) => Ok(done),
            Err(_) => Err(NoMemory),
        },
        Err(_) => Err(NoMemory),
    }
}

/// The place of the other of two nodes.
fn other(place: usize) -> usize {
    if place == 0 { 1 } else { 0 }
}

/// How many entries the settle tells of at the node in this place.
fn entries_at(settle: &SettleDone, place: usize) -> u64 {
    match settle.nodes.as_slice().get(place) {
        Some(mark) => mark.entries,
        None => 0,
    }
}

/// The entries from the one place of a node's journal to the other merged pairs of this origin.
fn came_by(done: &Record, place: usize, from: u64, to: u64, origin: Origin) -> bool {
    let Some(journal) = done.journals.as_slice().get(place) else {
        return false;
    };
    let mut came = true;
    for entry in journal
        .as_slice()
        .iter()
        .take(to as usize)
        .skip(from as usize)
    {
        match entry {
            JournalEntry::Merged { origin: by, .. } => came = came && *by == origin,
            _ => came = false,
        }
    }
    came
}

/// What a full sync that was started at the node in this place says of a settle of two nodes.
fn is_synced(settle: &SettleDone, place: usize, sync: &SyncDone) -> bool {
    sync.withheld == 0
        && sync.a0 == entries_at(settle, place)
        && sync.b0 == entries_at(settle, other(place))
}

/// All that either journal has more came in the reply, or in the push.
fn is_one_round(done: &Record, settle: &SettleDone, place: usize, sync: &SyncDone) -> bool {
    let (here, there) = (entries_at(settle, place), entries_at(settle, other(place)));
    sync.withheld == 0
        && came_by(done, place, sync.a0, here, Origin::SyncReply)
        && came_by(done, other(place), sync.b0, there, Origin::SyncPush)
}

/// Some full sync that was told at this settle or before makes the two nodes synced there.
fn has_synced_pair(settles: &[SettleDone], settle: &SettleDone) -> bool {
    let mut found = false;
    for earlier in settles {
        for (place, mark) in earlier.nodes.as_slice().iter().enumerate() {
            for sync in mark.syncs.as_slice() {
                found = found || is_synced(settle, place, sync);
            }
        }
    }
    found
}

/// Of some full sync that was told at this settle or before one round was enough there.
fn has_one_round(done: &Record, settles: &[SettleDone], settle: &SettleDone) -> bool {
    let mut found = false;
    for earlier in settles {
        for (place, mark) in earlier.nodes.as_slice().iter().enumerate() {
            for sync in mark.syncs.as_slice() {
                found = found || is_one_round(done, settle, place, sync);
            }
        }
    }
    found
}

/// The numbers of the settles behind the second at which the two nodes are synced.
fn synced_settles(alloc: Global, scenario: &str) -> Result<Vec<usize>, NoMemory> {
    let done = record_of(alloc, scenario)?;
    let settles = done.settles.as_slice();
    let mut synced = Vec::new(alloc);
    for (place, settle) in settles.iter().enumerate() {
        if 2 <= place && has_synced_pair(&settles[..place + 1], settle) {
            synced.push(place + 1)?;
        }
    }
    Ok(synced)
}

/// One round was enough at the settle with this number, from 1.
fn one_round_at(alloc: Global, scenario: &str, number: usize) -> Result<bool, NoMemory> {
    let done = record_of(alloc, scenario)?;
    let settles = done.settles.as_slice();
    let mut enough = false;
    for (place, settle) in settles.iter().enumerate() {
        if place + 1 == number {
            enough = has_one_round(&done, &settles[..place + 1], settle);
        }
    }
    Ok(enough)
}

#[test]
fn the_sync_behind_another_finds_both_stores_as_they_are(rt: HostRuntime) -> Result<(), Fail> {
    assert!(rt; synced_settles(rt.alloc(), TWO_SYNCS)?.as_slice() == [5].as_slice());
    assert!(rt; synced_settles(rt.alloc(), WITHHELD)?.is_empty());
    assert!(rt; synced_settles(rt.alloc(), RESTARTED)?.is_empty());
    Ok(())
}

#[test]
fn one_round_is_enough_but_where_something_is_withheld(rt: HostRuntime) -> Result<(), Fail> {
    assert!(rt; one_round_at(rt.alloc(), TWO_SYNCS, 4)?);
    assert!(rt; one_round_at(rt.alloc(), RESTARTED, 3)?);
    assert!(rt; !one_round_at(rt.alloc(), WITHHELD, 3)?);
    Ok(())
}
