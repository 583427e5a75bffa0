//! How a scenario is read from bytes.
//!
//! `read_scenario` reads lines of JSON objects (RFC 8259). What a line says is `specs/Statement.antt`; the fourteen
//! faults of a line are a table of conditions, each a definition of its own (`specs/Faults.antt`, over
//! `specs/Conditions.antt` and net_fields), and the promise is that the scenario, or the first faulty line with the
//! lowest number of a fault, is exactly what `specs/Language.antt` says. The definitions look at the lists of what was
//! declared and commanded before; the code keeps counts and hashed names beside those lists (`tally`, `names`), so that
//! reading takes time in proportion to the bytes.
//!
//! What is read is net_laboratory's `Scenario`, whose type keeps that it is sound.
//!
//! The turn lines of a report are few texts, many times over. So a text that was read as a turn line is kept with its
//! turn (`turn_lines`), and where it comes again it isn't read as JSON: it says the same turn wherever a turn line may
//! stand (`specs/TurnLines.antt`).
//!
//! The files: `statement` and `fault` (plain data), `names` and `tally` (what the lines so far amount to), `draft` (what
//! they say), `conditions` (the conditions on a line), `reading` (what it says), `turn_lines`, `line`, `language`.
#![tactic(auto)]

mod conditions;
mod draft;
mod fault;
mod language;
mod line;
mod names;
mod reading;
mod statement;
mod tally;
mod turn_lines;

pub use fault::{FaultKind, ReadRefusal, ScenarioFault};
pub use language::read_scenario;
