//! One line: its fault, or what it says.

ghost use Rattle.std.specs.Prelude.{◌≡◌, true, IfOk};
ghost use Rattle.serde_json.specs.View.{view};
ghost use Rattle.net_scenario.specs.Faults.{is_late, is_too_long, text_or_place_fault, command_fault, command_line, object_line, line_of};
ghost use Rattle.net_scenario.specs.Gives.{Gives};
ghost use Rattle.net_scenario.specs.Seen.{admits};
ghost use Rattle.net_scenario.specs.Tallied.{seen_in, line_at, IsTallied};

use crate::conditions::{
    has_two_owners, is_bad_field, is_misplaced, is_repeated, is_too_many, is_unknown_name,
};
use crate::draft::Draft;
use crate::fault::{FaultKind, LineRefusal};
use crate::reading::statement_of;
use crate::statement::Statement;
use net_fields::{
    Word, has_bad_prefix, has_bad_script, has_long_field, is_field_missing, is_lab, object_in,
    text_of, word_in,
};
use net_laboratory::{MOST_LINE_BYTES, MOST_SCENARIO_BYTES};
use or_base::NoMemory;
use serde_json::Value;
use std::alloc::Global;

/// A line as it is read: its bytes without its LF, its number from 1, where it ends with its LF, and whether turn lines
/// may stand.
#[derive(Clone, Copy)]
pub struct LineRead<'a> {
    pub text: &'a [u8],
    pub number: u64,
    pub end: u64,
    pub turns: bool,
}

impl LineRead<'_> {
    /// The line ends past the greatest size of a scenario.
    pub fn is_late(&self) -> bool
        ensures { result ≡ is_late (line_at self.now) }
    {
        self.end > MOST_SCENARIO_BYTES
    }
}

/// A name, a key, a value or the line is too long, or the line ends too late.
#[tactic(auto, unfolding(crate::specs::Faults::is_too_long))]
fn is_too_long(line: &LineRead<'_>, word: Word, object: &Value) -> bool
    ensures { result ≡ is_too_long (line_at line.now) word (view object.now) }
{
    line.text.len() > MOST_LINE_BYTES || line.is_late() || has_long_field(word, object)
}

/// The fault that the texts of a line or its place have; of several, the one with the lowest number.
#[tactic(auto, unfolding(crate::specs::Faults::text_or_place_fault))]
fn text_or_place_fault(
    draft: &Draft,
    line: &LineRead<'_>,
    word: Word,
    object: &Value,
) -> Option<FaultKind>
    ensures { result ≡ text_or_place_fault (seen_in draft.now) line.now.turns (line_at line.now) word (view object.now) }
{
    if is_too_long(line, word, object) {
        return Some(FaultKind::TooLong);
    }
    if has_bad_prefix(word, object) {
        return Some(FaultKind::BadPrefix);
    }
    if has_bad_script(word, object) {
        return Some(FaultKind::BadScript);
    }
    if is_misplaced(draft, line.turns, word) {
        return Some(FaultKind::WrongKind);
    }
    None
}

/// The fault with the lowest number of a line that is this object and names this command.
#[tactic(auto, unfolding(crate::specs::Faults::command_fault, crate::specs::Faults::text_or_place_fault))]
fn fault_of(
    alloc: Global,
    draft: &Draft,
    line: &LineRead<'_>,
    word: Word,
    object: &Value,
) -> Result<Option<FaultKind>, NoMemory>
    requires { IsTallied draft.now }
    ensures { IfOk result (λ fault. fault ≡ command_fault (seen_in draft.now) line.now.turns (line_at line.now) word (view object.now)) }
{
    if is_field_missing(word, object) {
        return Ok(Some(FaultKind::MissingField));
    }
    if is_bad_field(draft, word, object) {
        return Ok(Some(FaultKind::BadField));
    }
    if is_unknown_name(draft, word, object) {
        return Ok(Some(FaultKind::UnknownName));
    }
    if is_repeated(alloc, draft, word, object)? {
        return Ok(Some(FaultKind::RepeatedName));
    }
    if has_two_owners(draft, word, object) {
        return Ok(Some(FaultKind::TwoOwners));
    }
    if is_too_many(alloc, draft, word, object)? {
        return Ok(Some(FaultKind::TooMany));
    }
    Ok(text_or_place_fault(draft, line, word, object))
}

/// Reads a line that is this object and names this command.
#[tactic(auto, unfolding(crate::specs::Faults::command_line))]
fn read_command(
    alloc: Global,
    draft: &Draft,
    line: &LineRead<'_>,
    word: Word,
    object: &Value,
) -> Result<Statement, LineRefusal>
    requires { IsTallied draft.now }
    ensures gives { Gives result (command_line (seen_in draft.now) line.now.turns (line_at line.now) word (view object.now)) }
{
    match fault_of(alloc, draft, line, word, object)? {
        Some(kind) => Err(LineRefusal::Fault { kind }),
        None => Ok(statement_of(alloc, word, object)?),
    }
}

/// Reads a line that is this object.
#[tactic(auto, unfolding(crate::specs::Faults::object_line), using(crate::proofs::Lines::object_names))]
fn read_object(
    alloc: Global,
    draft: &Draft,
    line: &LineRead<'_>,
    object: &Value,
) -> Result<Statement, LineRefusal>
    requires { IsTallied draft.now }
    ensures { Gives result (object_line (seen_in draft.now) line.now.turns (line_at line.now) (view object.now)) }
{
    if draft.kind.is_none() && !is_lab(object) {
        return Err(LineRefusal::Fault {
            kind: FaultKind::NoLab,
        });
    }
    match word_in(object) {
        Some(word) => read_command(alloc, draft, line, word, object),
        None => Err(LineRefusal::Fault {
            kind: FaultKind::UnknownCommand,
        }),
    }
}

/// Reads a line that isn't blank.
#[tactic(auto, unfolding(crate::specs::Faults::line_of, crate::specs::Faults::object_line))]
pub fn read_line(
    alloc: Global,
    draft: &Draft,
    line: &LineRead<'_>,
) -> Result<Statement, LineRefusal>
    requires { IsTallied draft.now }
    ensures gives { Gives result (line_of (seen_in draft.now) line.now.turns (line_at line.now)) }
{
    let text = match text_of(line.text) {
        Some(text) => text,
        None => return Err(LineRefusal::Fault {
            kind: FaultKind::NotText,
        }),
    };
    match object_in(alloc, text)? {
        Some(object) => read_object(alloc, draft, line, &object),
        None => Err(LineRefusal::Fault {
            kind: FaultKind::BadJson,
        }),
    }
}
