//! Decision: its answers as it is fed the records of two nodes, which are stated for readers of records, and links that carry
//! nothing.

use crate::fixtures::{name, value_by};
use decision_core::DecisionModule;
use ls_records::Records;
use or_actor::{Module, Outbox, Output};
use or_base::{Item, JournalEntry, Key, Name, NoMemory, Origin, Pair, Told};
use or_prefix::read_prefix;
use std::alloc::Global;
use std::process::Abort;
use std::test::Fail;

/// The link record of a, which has b as its neighbour.
const LINKS_OF_A: &str =
    r#"{"node":"a","overload":false,"adjacencies":[{"other":"b","if":"if-b","other_if":"if-a","metric":1,"overload":false}]}"#;
/// The link record of b, which has a as its neighbour.
const LINKS_OF_B: &str =
    r#"{"node":"b","overload":false,"adjacencies":[{"other":"a","if":"if-a","other_if":"if-b","metric":1,"overload":false}]}"#;
/// One of b that names another interface of a.
const OTHER_LINKS_OF_B: &str =
    r#"{"node":"b","overload":false,"adjacencies":[{"other":"a","if":"if-a","other_if":"if-c","metric":1,"overload":false}]}"#;
/// The prefix record of b.
const PREFIXES_OF_B: &str =
    r#"{"node":"b","entries":[{"prefix":"10.9.0.0/16","path":1000,"source":100,"distance":0}]}"#;

/// One new route is told to PrefixManager, at port 3, and to Fib, at port 6.
const ONE_ROUTE: &str = "3 Routes 0 1; 6 Routes 0 1; ";

/// The key of a text.
fn key(alloc: Global, text: &str) -> Result<Key, NoMemory> {
    Ok(Key::from_string(String::from_str(alloc, text)?))
}

/// The text is merged under the key.
fn merged(alloc: Global, under: &str, text: &str) -> Result<JournalEntry, NoMemory> {
    let pair = Pair {
        key: key(alloc, under)?,
        value: value_by(alloc, 1, "b", text.as_bytes())?,
    };
    Ok(JournalEntry::Merged {
        pair,
        at: 0,
        origin: Origin::Flood,
    })
}

/// An output in words: its port, and how many routes go and how many are set.
fn output_in_words(alloc: Global, output: &Output) -> Result<String, NoMemory> {
    let Output::To { lane, item } = output;
    let words = match item {
        Item::Routes { delta } => {
            let gone = delta.del.as_slice().len();
            let set = delta.set.as_slice().len();
            format!(in alloc; "{lane} Routes {gone} {set}; ")?
        }
        _ => String::from_str(alloc, "another item; ")?,
    };
    Ok(words)
}

/// Decision is handed the entry, and sends what these words say.
fn feed(
    rt: &impl Abort,
    alloc: Global,
    decision: &mut DecisionModule,
    entry: JournalEntry,
    words: &str,
) -> Result<(), Fail> {
    let mut out = Outbox::new(alloc);
    let item = Item::Entry { entry };
    if decision.fits(&item) {
        let _found = decision.turn(0, item, &mut out)?;
    }
    let mut sent = String::new(alloc);
    for _output in 0..3 {
        if let Some(output) = out.take_first() {
            let more = output_in_words(alloc, &output)?;
            sent.push_str(more.as_str())?;
        }
    }
    assert_eq!(rt; sent.as_str(), words);
    Ok(())
}

/// The interfaces, joined by commas.
fn hops_in_words(alloc: Global, hops: &[Name]) -> Result<String, NoMemory> {
    let mut words = String::new(alloc);
    for hop in hops {
        words.push_str(hop.as_str())?;
        words.push_str(",")?;
    }
    Ok(words)
}

/// What Decision answers about the prefix to whoever has seen so many entries, in words.
fn answer_in_words(
    alloc: Global,
    decision: &DecisionModule,
    prefix: &str,
    seen: u64,
) -> Result<String, NoMemory> {
    let Ok(prefix) = read_prefix(prefix.as_bytes()) else {
        return Ok(String::from_str(alloc, "no prefix")?);
    };
    let words = match decision.answer(&prefix, seen)? {
        Told::Route(route) => {
            let hops = hops_in_words(alloc, route.hops.as_slice())?;
            let cost = route.cost;
            format!(in alloc; "route {cost} {hops}")?
        }
        Told::Nothing => String::from_str(alloc, "none")?,
        Told::Behind(at) => format!(in alloc; "behind {at}")?,
        Told::Value(_) => String::from_str(alloc, "a value")?,
    };
    Ok(words)
}

/// The five entries, by their place.
fn entry(alloc: Global, place: u32) -> Result<JournalEntry, NoMemory> {
    match place {
        0 => merged(alloc, "adj:a", LINKS_OF_A),
        1 => merged(alloc, "adj:b", LINKS_OF_B),
        2 => merged(alloc, "prefix:b", PREFIXES_OF_B),
        3 => merged(alloc, "adj:z", "no"),
        _ => Ok(JournalEntry::Expired {
            key: key(alloc, "adj:z")?,
            at: 0,
        }),
    }
}

/// Decision of a, which is handed the five entries.
fn fed_decision(rt: &impl Abort, alloc: Global) -> Result<DecisionModule, Fail> {
    let mut decision = DecisionModule::new(alloc, name(alloc, "a")?)?;
    for place in 0..5 {
        let words = if place == 2 { ONE_ROUTE } else { "" };
        feed(rt, alloc, &mut decision, entry(alloc, place)?, words)?;
    }
    Ok(decision)
}

/// Decision answers these words about the prefix to whoever has seen so many entries.
fn answers(
    rt: &impl Abort,
    alloc: Global,
    decision: &DecisionModule,
    prefix: &str,
    seen: u64,
    words: &str,
) -> Result<(), Fail> {
    let told = answer_in_words(alloc, decision, prefix, seen)?;
    assert_eq!(rt; told.as_str(), words);
    Ok(())
}

#[test]
fn decision_without_entries_is_behind_whoever_has_seen_one(rt: HostRuntime) -> Result<(), Fail> {
    let alloc = rt.alloc();
    let decision = DecisionModule::new(alloc, name(alloc, "a")?)?;
    answers(&rt, alloc, &decision, "10.9.0.0/16", 0, "none")?;
    answers(&rt, alloc, &decision, "10.9.0.0/16", 1, "behind 0")?;
    Ok(())
}

#[test]
fn decision_answers_by_what_it_took(rt: HostRuntime) -> Result<(), Fail> {
    let alloc = rt.alloc();
    let decision = fed_decision(&rt, alloc)?;
    answers(&rt, alloc, &decision, "10.9.0.0/16", 7, "behind 5")?;
    answers(&rt, alloc, &decision, "10.9.0.0/16", 5, "route 1 if-b,")?;
    answers(&rt, alloc, &decision, "10.8.0.0/16", 5, "none")?;
    Ok(())
}

#[test]
fn interfaces_that_do_not_match_carry_nothing(rt: HostRuntime) -> Result<(), Fail> {
    let alloc = rt.alloc();
    let mut records = Records::new(alloc, name(alloc, "a")?);
    let _first = records.take(&merged(alloc, "adj:a", LINKS_OF_A)?)?;
    let second = records.take(&merged(alloc, "adj:b", OTHER_LINKS_OF_B)?)?;
    assert_eq!(rt; second.links.len(), 0);
    let third = records.take(&merged(alloc, "adj:b", LINKS_OF_B)?)?;
    assert_eq!(rt; third.links.len(), 2);
    assert_eq!(rt; records.arcs().len(), 2);
    Ok(())
}
