//! Calls of the program whose source or sink fails, or isn't read. What it does with whole streams, `cases/` at the top states.

use crate::top::openr;
use or_base::{MemSink, MemSource};
use std::alloc::Global;
use std::process::Abort;
use std::test::Fail;

/// A store, a set of a key at it, and a settle that shows it.
const SCENARIO: &str = r#"{"do":"lab","kind":"stores"}
{"do":"node","name":"a"}
{"do":"set","node":"a","key":"x","version":1,"hex":"01"}
{"do":"settle","show":"stores"}
"#;

const REPORT: &str = "settle 1 moment 0\nstore a entries 1 stale 0\nkey x 1 a 01 0 -\nend\n";

const USAGE: &str = "usage: openr_lab [--workers n] [--size n] [--trace] replay|live|gen|check\n";

/// One call of the program on the scenario. The read and the write with these numbers fail, from 1.
struct Case {
    name: &'static str,
    words: &'static [&'static str],
    failing_read: u64,
    failing_write: u64,
    status: u8,
    has_record: bool,
    output: &'static str,
}

const CASES: &[Case] = &[
    Case {
        name: "a run whose report is written has its record",
        words: &["replay"],
        failing_read: 0,
        failing_write: 0,
        status: 0,
        has_record: true,
        output: REPORT,
    },
    Case {
        name: "a first read that fails",
        words: &["replay"],
        failing_read: 1,
        failing_write: 0,
        status: 6,
        has_record: false,
        output: "",
    },
    Case {
        name: "a read that fails in mid-stream",
        words: &["replay"],
        failing_read: 5,
        failing_write: 0,
        status: 6,
        has_record: false,
        output: "",
    },
    Case {
        name: "wrong words are refused before anything is read",
        words: &["fly"],
        failing_read: 1,
        failing_write: 0,
        status: 2,
        has_record: false,
        output: USAGE,
    },
    Case {
        name: "the mode live isn't built, which is told before anything is read",
        words: &["live", "--workers", "4"],
        failing_read: 1,
        failing_write: 0,
        status: 3,
        has_record: false,
        output: "not built\n",
    },
    Case {
        name: "the mode gen reads nothing, and writes what the run of a grid came to",
        words: &["--size", "2", "gen"],
        failing_read: 1,
        failing_write: 0,
        status: 0,
        has_record: true,
        output: "grid 2 nodes 4 links 4 keys 32 routes 12\n",
    },
    Case {
        name: "a write of the summary that fails leaves a front of it, and the record",
        words: &["gen", "--size=2"],
        failing_read: 1,
        failing_write: 2,
        status: 7,
        has_record: true,
        output: "grid 2 nod",
    },
    Case {
        name: "the mode check isn't built, and no source is read for it",
        words: &["check"],
        failing_read: 1,
        failing_write: 0,
        status: 3,
        has_record: false,
        output: "not built\n",
    },
    Case {
        name: "a write that fails in mid-stream leaves a front of the report, and the record",
        words: &["replay"],
        failing_read: 0,
        failing_write: 2,
        status: 7,
        has_record: true,
        output: "settle 1 m",
    },
    Case {
        name: "a write of the usage line that fails",
        words: &["fly"],
        failing_read: 0,
        failing_write: 2,
        status: 7,
        has_record: false,
        output: "usage: ope",
    },
];

/// The words as the program is given them.
fn words_of(alloc: Global, words: &[&str]) -> Result<Vec<String>, Fail> {
    let mut all = Vec::new(alloc);
    for word in words {
        all.push(String::from_str(alloc, word)?)?;
    }
    Ok(all)
}

/// Runs a case, with 10 bytes a read and a write.
fn ends_as_stated(rt: &impl Abort, alloc: Global, case: &Case) -> Result<(), Fail> {
    let words = words_of(alloc, case.words)?;
    let failing_reads = vec![in alloc; case.failing_read]?;
    let failing_writes = vec![in alloc; case.failing_write]?;
    let scenario = SCENARIO.as_bytes().to_vec(alloc)?;
    let mut source = MemSource::new(scenario, 10, failing_reads)?;
    let mut sink = MemSink::new(alloc, 10, failing_writes)?;
    let ended = openr(alloc, words.as_slice(), &mut source, &mut sink);
    assert_eq!(rt; ended.status, case.status, "{}", case.name);
    assert_eq!(rt; ended.run.is_some(), case.has_record, "{}", case.name);
    assert_eq!(rt; sink.bytes(), case.output.as_bytes(), "{}", case.name);
    Ok(())
}

#[test]
fn each_call_ends_as_stated(rt: HostRuntime) -> Result<(), Fail> {
    for case in CASES {
        ends_as_stated(&rt, rt.alloc(), case)?;
    }
    Ok(())
}
