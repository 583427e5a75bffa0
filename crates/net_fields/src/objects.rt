ghost use Rattle.std.specs.Prelude.{◌≡◌, ◌↔◌, IfOk, IfSome, IsErr, None, is_some, option_map, map, not};
ghost use Rattle.serde_json.specs.Errors.{IsMemory};
ghost use Rattle.std.specs.List.{list_any};
ghost use Rattle.std.specs.Str.{bytes_eq, is_utf8};
ghost use Rattle.serde_json.specs.View.{view, members_view};
ghost use Rattle.net_fields.specs.Fields.{field_entry};
ghost use Rattle.net_fields.specs.Flaws.{has_flaw};
ghost use Rattle.net_fields.specs.Objects.{object_in, do_text, word_in, is_lab, meets, is_absent, takes_value, is_field_missing, any_name, is_named, has_other_member, is_contradictory, has_field_with, has_unfit_field, has_long_field, has_bad_prefix, has_bad_script};

use crate::field::Field;
use crate::fields::fields_of;
use crate::flaws::{Flaw, can_have, has_flaw};
use crate::members::{has, text_at};
use crate::word::{Word, word_of};
use or_base::NoMemory;
use serde_json::{Error, Map, Value};
use std::alloc::Global;

/// A line as text, where it is UTF-8.
#[tactic(auto, using(crate::proofs::Lines::utf8))]
pub fn text_of(line: &[u8]) -> Option<&str>
    ensures text { IfSome result (λ text. text.now ≡ line.now) }
    ensures none { is_some result ≡ is_utf8 line.now }
{
    str::from_utf8(line).ok()
}

/// None for the error of a text that is no JSON; out of memory exactly where the library was.
fn none_unless_memory(error: &Error) -> Result<Option<Value>, NoMemory>
    ensures none { IfOk result (λ o. o ≡ None) }
    ensures memory { IsErr result ↔ IsMemory error.now }
{
    if error.is_memory() {
        return Err(NoMemory);
    }
    Ok(None)
}

/// Reads a text as a JSON object; None where it is no such object.
#[tactic(auto, unfolding(crate::specs::Objects::object_in))]
pub fn object_in(alloc: Global, text: &str) -> Result<Option<Value>, NoMemory>
    ensures { IfOk result (λ o. option_map view o ≡ object_in text.now) }
{
    match Value::from_str(alloc, text) {
        Ok(value) if value.is_object() => Ok(Some(value)),
        Ok(_other) => Ok(None),
        Err(error) => none_unless_memory(&error),
    }
}

/// The text of the member `do`.
fn do_text(object: &Value) -> Option<&str>
    ensures { option_map (λ text. text.now) result ≡ do_text (view object.now) }
{
    object.get("do").and_then(Value::as_str)
}

/// The command that an object names.
#[tactic(auto, unfolding(crate::specs::Objects::word_in))]
pub fn word_in(object: &Value) -> Option<Word>
    ensures { result ≡ word_in (view object.now) }
{
    match do_text(object) {
        Some(name) => word_of(name),
        None => None,
    }
}

/// The object names the command `lab`.
#[tactic(auto, unfolding(crate::specs::Objects::is_lab))]
pub fn is_lab(object: &Value) -> bool
    ensures { result ≡ is_lab (view object.now) }
{
    match do_text(object) {
        Some(name) => name == "lab",
        None => false,
    }
}

/// The field must be there and isn't.
fn is_absent(field: &Field, object: &Value) -> bool
    ensures { result ≡ is_absent (view object.now) (field_entry field.now) }
{
    field.is_needed && !has(object, field.name)
}

/// Some field must be there and isn't.
fn has_absent(fields: &[Field], object: &Value) -> bool
    ensures { result ≡ list_any (λ f. is_absent (view object.now) (field_entry f)) fields.now }
{
    fields.iter().any(|field| is_absent(field, object))
}

/// The name is that of one of the fields.
fn is_named(fields: &[Field], name: &str) -> bool
    ensures { result ≡ list_any (λ f. bytes_eq f.name.now name.now) fields.now }
{
    fields.iter().any(|field| field.name == name)
}

/// The command takes a value, as `hex` or as `text`.
#[tactic(auto, using(crate::proofs::Lists::through_map))]
fn takes_value(word: Word) -> bool
    ensures { result ≡ takes_value word }
{
    is_named(fields_of(word), "hex")
}

/// A field that isn't optional is missing; of `hex` and `text`, both.
#[tactic(auto, unfolding(crate::specs::Objects::is_field_missing), using(crate::proofs::Lists::through_map))]
pub fn is_field_missing(word: Word, object: &Value) -> bool
    ensures { result ≡ is_field_missing word (view object.now) }
{
    has_absent(fields_of(word), object)
        || (takes_value(word) && !has(object, "hex") && !has(object, "text"))
}

/// Some member has a name that no field has.
#[tactic(auto, using(crate::proofs::Lists::through_map))]
fn has_unnamed(fields: &[Field], members: &Map<String, Value>) -> bool
    ensures { result ≡ any_name (λ name. not (is_named (map field_entry fields.now) name)) (members_view members.now.entries) }
{
    for name in members.keys() {
        if !is_named(fields, name.as_str()) {
            return true;
        }
    }
    false
}

/// A member isn't a field of the command.
#[tactic(auto, unfolding(crate::specs::Objects::has_other_member))]
pub fn has_other_member(word: Word, object: &Value) -> bool
    ensures { result ≡ has_other_member word (view object.now) }
{
    match object.as_object() {
        Some(members) => has_unnamed(fields_of(word), members),
        None => false,
    }
}

/// A value is said twice, or the two ends of a link are one node.
#[tactic(auto, unfolding(crate::specs::Objects::is_contradictory))]
pub fn is_contradictory(word: Word, object: &Value) -> bool
    ensures { result ≡ is_contradictory word (view object.now) }
{
    (takes_value(word) && has(object, "hex") && has(object, "text"))
        || (word == Word::Link && text_at(object, "a") == text_at(object, "b"))
}

/// The field is there with a value that has the flaw.
#[tactic(auto, using(crate::proofs::Elsewhere::elsewhere))]
fn meets_flaw(flaw: Flaw, field: &Field, object: &Value) -> bool
    ensures { result ≡ meets (has_flaw flaw) (view object.now) (field_entry field.now) }
{
    can_have(flaw, field.form)
        && object
            .get(field.name)
            .is_some_and(|value| has_flaw(flaw, field.form, value))
}

/// Some of these fields is there with a value that has the flaw.
fn any_meets_flaw(flaw: Flaw, fields: &[Field], object: &Value) -> bool
    ensures { result ≡ list_any (λ f. meets (has_flaw flaw) (view object.now) (field_entry f)) fields.now }
{
    fields.iter().any(|field| meets_flaw(flaw, field, object))
}

/// Some field of the command is there with a value that has the flaw.
#[tactic(auto, unfolding(crate::specs::Objects::has_field_with), using(crate::proofs::Lists::through_map))]
fn has_field_with(flaw: Flaw, word: Word, object: &Value) -> bool
    ensures { result ≡ has_field_with flaw word (view object.now) }
{
    any_meets_flaw(flaw, fields_of(word), object)
}

/// Some field has a value that its form doesn't take.
pub fn has_unfit_field(word: Word, object: &Value) -> bool
    ensures { result ≡ has_unfit_field word (view object.now) }
{
    has_field_with(Flaw::Unfit, word, object)
}

/// A name, a key or a value is too long.
pub fn has_long_field(word: Word, object: &Value) -> bool
    ensures { result ≡ has_long_field word (view object.now) }
{
    has_field_with(Flaw::Long, word, object)
}

/// Some text should be a prefix and isn't.
pub fn has_bad_prefix(word: Word, object: &Value) -> bool
    ensures { result ≡ has_bad_prefix word (view object.now) }
{
    has_field_with(Flaw::NoPrefix, word, object)
}

/// Some list should be a script and isn't.
pub fn has_bad_script(word: Word, object: &Value) -> bool
    ensures { result ≡ has_bad_script word (view object.now) }
{
    has_field_with(Flaw::NoScript, word, object)
}
