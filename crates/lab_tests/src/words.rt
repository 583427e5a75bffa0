//! lab_words: command lines that are read and that are refused.

use lab_words::{Mode, Words, WordsFault, read_words};
use std::alloc::{AllocError, Global};
use std::test::Fail;

const fn asks(mode: Mode, workers: u32, size: u32, trace: bool) -> Words {
    Words {
        mode,
        workers,
        size,
        trace,
    }
}

/// What is read of a line whose words spaces part.
fn read_line(alloc: Global, line: &str) -> Result<Result<Words, WordsFault>, AllocError> {
    let mut words = Vec::new(alloc);
    for word in line.split_whitespace() {
        words.push(String::from_str(alloc, word)?)?;
    }
    Ok(read_words(alloc, words.as_slice()))
}

#[test]
fn command_lines_are_read(rt: HostRuntime) -> Result<(), Fail> {
    let table = [
        ("replay", asks(Mode::Replay, 2, 3, false)),
        ("live", asks(Mode::Live, 2, 3, false)),
        ("gen", asks(Mode::Gen, 2, 3, false)),
        ("check", asks(Mode::Check, 2, 3, false)),
        (
            "--workers 64 --size=8 --trace live",
            asks(Mode::Live, 64, 8, true),
        ),
        ("check --workers=1", asks(Mode::Check, 1, 3, false)),
        ("gen --workers +4", asks(Mode::Gen, 4, 3, false)),
        ("gen --workers 04", asks(Mode::Gen, 4, 3, false)),
        ("gen --size 2 --trace", asks(Mode::Gen, 2, 2, true)),
        ("-- gen", asks(Mode::Gen, 2, 3, false)),
    ];
    for (line, wanted) in table {
        assert!(rt; read_line(rt.alloc(), line)? == Ok(wanted), "{line}");
    }
    Ok(())
}

#[test]
fn command_lines_are_refused(rt: HostRuntime) -> Result<(), Fail> {
    let lines = [
        "",
        "fly",
        "Replay",
        "help",
        "gen gen",
        "gen --size=1",
        "gen --size=9",
        "gen --size -3",
        "gen --workers=0",
        "gen --workers=65",
        "gen --workers 3x",
        "gen --workers",
        "--work 3 live",
        "--help",
        "-h",
        "--version",
        "gen --trace --trace",
        "gen --size=2 --size=2",
        "--trace=true gen",
    ];
    for line in lines {
        assert!(rt;
            read_line(rt.alloc(), line)? == Err(WordsFault::Usage),
            "{line}"
        );
    }
    Ok(())
}
