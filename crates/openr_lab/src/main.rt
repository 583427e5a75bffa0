//! The program: bytes in, bytes and a status out.
//!
//! `openr` does all that the program does, over any source and any sink: it reads the words, then the source, runs
//! the scenario by round robin or under the turns that it gives, and writes the report. Input is read whole before anything is done with it, and every
//! text is made whole before its first byte goes out. Its contract is the theorem on the whole program: what each
//! status says of the words, of the bytes read, of the bytes written and of the record (`specs/Ends.antt`, over
//! `answer_to` of `specs/Answer.antt`). What the program doesn't run yet is said in one place (`specs/Built.antt`).
//! In mode gen it
//! reads nothing, and runs a grid of the size that the words ask for. `main` makes the real source and sink and ends with the
//! status.
//!
//! The files: `built` (what is run so far), `texts` (the texts of the statuses other than 0), `streams` (reading and
//! writing whole), `replay` (the answer to the bytes), `grids` (the answer of mode gen), `top` (the calls).
#![tactic(auto)]

mod answer;
mod built;
mod ended;
mod grids;
mod replay;
mod streams;
#[cfg(test)]
mod tests;
mod texts;
mod top;

ghost use Rattle.std.specs.Prelude.{◌≡◌};

use ended::Ended;
use or_base::{RealSink, RealSource};
use std::process::ExitCode;
use std::rt::Env;
use std::{env, io};
use top::openr;

/// The status where memory ran out.
const OUT_OF_MEMORY: u8 = 5;

/// The words after the program's name; none where one of them isn't text, since that is no word of the program's.
fn words_given(rt: &(impl Env + AllocGlobal)) -> io::Result<Vec<String>> {
    match env::args(rt) {
        Ok(args) => Ok(args.skip(1).collect(rt.alloc())?),
        Err(error) if error.kind() == io::ErrorKind::InvalidData => Ok(Vec::new(rt.alloc())),
        Err(error) => Err(error),
    }
}

/// The status that the process ends with.
fn exit_status(ended: &Ended) -> u8
    ensures { result ≡ ended.now.status }
{
    ended.status
}

fn main(rt: HostRuntime) -> ExitCode {
    let words = match words_given(&rt) {
        Ok(words) => words,
        Err(_) => return ExitCode::from(OUT_OF_MEMORY),
    };
    let mut source = RealSource::new(rt.stdin());
    let mut sink = RealSink::new(rt.stdout());
    let ended = openr(rt.alloc(), words.as_slice(), &mut source, &mut sink);
    ExitCode::from(exit_status(&ended))
}
