//! or_json: records that are read and written again, and texts that are none.

use or_base::NoMemory;
use or_json::{adj_of, adj_text, prefixes_of, prefixes_text};
use std::alloc::Global;
use std::test::Fail;

const LINK: &str =
    r#"{"node":"b","overload":false,"adjacencies":[{"other":"a","if":"if-a","other_if":"if-b","metric":1,"overload":false}]}"#;

const PREFIX: &str =
    r#"{"node":"b","entries":[{"prefix":"10.9.0.0/16","path":1000,"source":100,"distance":0}]}"#;

/// Texts, and how the link record of each is written; nothing where it has none.
const LINKS: [(&str, &str); 11] = [
    (LINK, LINK),
    // Another order, spaces and other members.
    (
        r#"{ "adjacencies": [{"metric": 1, "overload": false, "if": "if-a", "x": [1.5], "other_if": "if-b", "other": "a"}], "y": null, "overload": false, "node": "b" }"#,
        LINK,
    ),
    ("no", ""),
    // No `overload` at the adjacency, and none at the node.
    (
        r#"{"node":"b","overload":false,"adjacencies":[{"other":"a","if":"if-a","other_if":"if-b","metric":1}]}"#,
        "",
    ),
    (r#"{"node":"b","adjacencies":[]}"#, ""),
    // Metrics that are out of range or no whole numbers.
    (
        r#"{"node":"b","overload":false,"adjacencies":[{"other":"a","if":"if-a","other_if":"if-b","metric":0,"overload":false}]}"#,
        "",
    ),
    (
        r#"{"node":"b","overload":false,"adjacencies":[{"other":"a","if":"if-a","other_if":"if-b","metric":1.0,"overload":false}]}"#,
        "",
    ),
    (
        r#"{"node":"b","overload":false,"adjacencies":[{"other":"a","if":"if-a","other_if":"if-b","metric":-1,"overload":false}]}"#,
        "",
    ),
    (
        r#"{"node":"b","overload":false,"adjacencies":[{"other":"a","if":"if-a","other_if":"if-b","metric":2147483648,"overload":false}]}"#,
        "",
    ),
    // A name in upper case.
    (r#"{"node":"B","overload":false,"adjacencies":[]}"#, ""),
    // One interface twice.
    (
        r#"{"node":"b","overload":false,"adjacencies":[{"other":"a","if":"if-a","other_if":"if-b","metric":1,"overload":false},{"other":"c","if":"if-a","other_if":"if-c","metric":1,"overload":false}]}"#,
        "",
    ),
];

/// Texts, and how the prefix record of each is written; nothing where it has none.
const PREFIXES: [(&str, &str); 5] = [
    (PREFIX, PREFIX),
    (
        r#"{"entries":[{"prefix":"2001:DB8::/32","path":1,"source":2,"distance":2147483647}],"node":"b"}"#,
        r#"{"node":"b","entries":[{"prefix":"2001:db8::/32","path":1,"source":2,"distance":2147483647}]}"#,
    ),
    // No distance, a bit past the length, one prefix in two spellings.
    (
        r#"{"node":"b","entries":[{"prefix":"10.9.0.0/16","path":1000,"source":100}]}"#,
        "",
    ),
    (
        r#"{"node":"b","entries":[{"prefix":"10.9.0.1/16","path":1000,"source":100,"distance":0}]}"#,
        "",
    ),
    (
        r#"{"node":"b","entries":[{"prefix":"2001:DB8::/32","path":1,"source":1,"distance":0},{"prefix":"2001:db8:0::/32","path":2,"source":1,"distance":0}]}"#,
        "",
    ),
];

/// The link record of a text, written again.
fn link_again(alloc: Global, text: &str) -> Result<Vec<u8>, NoMemory> {
    match adj_of(alloc, text.as_bytes())? {
        Some(db) => Ok(adj_text(alloc, &db)?.into_vec()?),
        None => Ok(Vec::new(alloc)),
    }
}

#[test]
fn link_records_are_read_and_written(rt: HostRuntime) -> Result<(), Fail> {
    for (text, want) in LINKS {
        let written = link_again(rt.alloc(), text)?;
        assert_eq!(rt; written.as_slice(), want.as_bytes(), "{text}");
    }
    Ok(())
}

/// The fields of the adjacencies that a link record has, in their order.
fn adjacency_fields(alloc: Global, text: &str) -> Result<String, NoMemory> {
    let mut out = String::new(alloc);
    if let Some(db) = adj_of(alloc, text.as_bytes())? {
        for a in db.adjacencies.as_slice() {
            write!(out, "{} {} ", a.other.as_str(), a.own_if.as_str())?;
            write!(out, "{} {}", a.other_if.as_str(), a.metric)?;
        }
    }
    Ok(out)
}

#[test]
fn the_members_of_an_adjacency_are_its_fields(rt: HostRuntime) -> Result<(), Fail> {
    let fields = adjacency_fields(rt.alloc(), LINK)?;
    assert_eq!(rt; fields.as_str(), "a if-a if-b 1");
    Ok(())
}

/// The prefix record of a text, written again.
fn prefixes_again(alloc: Global, text: &str) -> Result<Vec<u8>, NoMemory> {
    match prefixes_of(alloc, text.as_bytes())? {
        Some(db) => Ok(prefixes_text(alloc, &db)?.into_vec()?),
        None => Ok(Vec::new(alloc)),
    }
}

#[test]
fn prefix_records_are_read_and_written(rt: HostRuntime) -> Result<(), Fail> {
    for (text, want) in PREFIXES {
        let written = prefixes_again(rt.alloc(), text)?;
        assert_eq!(rt; written.as_slice(), want.as_bytes(), "{text}");
    }
    Ok(())
}

/// The numbers of the entries that a prefix record has.
fn entry_numbers(alloc: Global, text: &str) -> Result<String, NoMemory> {
    let mut out = String::new(alloc);
    if let Some(db) = prefixes_of(alloc, text.as_bytes())? {
        for e in db.entries.as_slice() {
            write!(out, "path {} source {} ", e.path, e.source)?;
            write!(out, "distance {}", e.distance)?;
        }
    }
    Ok(out)
}

#[test]
fn the_members_of_an_entry_are_its_fields(rt: HostRuntime) -> Result<(), Fail> {
    let numbers = entry_numbers(rt.alloc(), PREFIX)?;
    assert_eq!(rt; numbers.as_str(), "path 1000 source 100 distance 0");
    Ok(())
}
