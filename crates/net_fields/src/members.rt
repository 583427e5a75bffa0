ghost use Rattle.std.specs.Prelude.{◌≡◌, [], IfOk, option_and_then, unwrap_or};
ghost use Rattle.serde_json.specs.Data.{no_items};
ghost use Rattle.serde_json.specs.Find.{get, as_array};
ghost use Rattle.serde_json.specs.View.{view, items_view};
ghost use Rattle.net_fields.specs.Forms.{hex_bytes};
ghost use Rattle.net_fields.specs.Members.{has, text_at, text_or, number_at, number_or, flag_at, kind_at, show_at, prefix_at, value_at, naturals_in, numbers_at, act_in, acts_in, acts_at};

use crate::forms::{act_of, kind_of, show_of};
use net_laboratory::Show;
use or_base::{Act, Bytes, Kind, NoMemory, Prefix, Seq};
use or_prefix::read_prefix;
use serde_json::Value;
use std::alloc::Global;

/// The object has a member of this name.
pub fn has(object: &Value, name: &str) -> bool
    ensures { result ≡ has name.now (view object.now) }
{
    object.get(name).is_some()
}

/// What a member says as text; the empty text where it says none.
pub fn text_at<'v>(object: &'v Value, name: &str) -> &'v str
    ensures { result.now ≡ text_at name.now (view object.now) }
{
    object.get(name).and_then(Value::as_str).unwrap_or("")
}

/// What a member says as text, or else `default`.
pub fn text_or<'v>(object: &'v Value, name: &str, default: &'v str) -> &'v str
    ensures { result.now ≡ text_or name.now default.now (view object.now) }
{
    object.get(name).and_then(Value::as_str).unwrap_or(default)
}

/// What a member says as a number below 2^64, written without sign, fraction and exponent.
pub fn number_at(object: &Value, name: &str) -> Option<u64>
    ensures { result ≡ number_at name.now (view object.now) }
{
    object.get(name).and_then(Value::as_u64)
}

/// The same, or else `default`.
pub fn number_or(object: &Value, name: &str, default: u64) -> u64
    ensures { result ≡ number_or name.now default (view object.now) }
{
    number_at(object, name).unwrap_or(default)
}

/// Whether a member is `true`.
pub fn flag_at(object: &Value, name: &str) -> bool
    ensures { result ≡ flag_at name.now (view object.now) }
{
    object.get(name).and_then(Value::as_bool).unwrap_or(false)
}

/// The kind that a member names, by default stores alone.
pub fn kind_at(object: &Value, name: &str) -> Kind
    ensures { result ≡ kind_at name.now (view object.now) }
{
    kind_of(text_at(object, name)).unwrap_or(Kind::Stores)
}

/// What a member says is to be shown, by default both.
pub fn show_at(object: &Value, name: &str) -> Show
    ensures { result ≡ show_at name.now (view object.now) }
{
    show_of(text_at(object, name)).unwrap_or(Show::Both)
}

/// The prefix that a member says.
pub fn prefix_at(object: &Value, name: &str) -> Option<Prefix>
    ensures { result ≡ prefix_at name.now (view object.now) }
{
    read_prefix(text_at(object, name).as_bytes()).ok()
}

/// The bytes that a text says in hexadecimal, none where it says no bytes.
#[tactic(auto, unfolding(crate::specs::Forms::hex_bytes))]
fn bytes_of(alloc: Global, text: &str) -> Result<Vec<u8>, NoMemory>
    ensures { IfOk result (λ bytes. bytes.items ≡ unwrap_or (hex_bytes text.now) []) }
{
    match hex::decode(alloc, text.as_bytes()) {
        Ok(bytes) => Ok(bytes),
        Err(hex::FromHexError::OutOfMemory) => Err(NoMemory),
        Err(_other) => Ok(Vec::new(alloc)),
    }
}

/// The bytes of a value: those of `hex` where it is there, else those of `text`.
#[tactic(auto, unfolding(crate::specs::Members::value_at))]
pub fn value_at(alloc: Global, object: &Value) -> Result<Bytes, NoMemory>
    ensures { IfOk result (λ v. v ≡ value_at (view object.now)) }
{
    if has(object, "hex") {
        return Ok(Bytes::from_vec(bytes_of(alloc, text_at(object, "hex"))?));
    }
    Ok(Bytes::from_vec(Vec::from_slice(alloc, text_at(object, "text").as_bytes())?))
}

/// The number of each value, 0 for one that isn't a number.
fn naturals_in(alloc: Global, values: &[Value]) -> Result<Vec<u64>, NoMemory>
    ensures { IfOk result (λ numbers. numbers.items ≡ naturals_in (items_view values.now)) }
{
    let mut numbers = Vec::new(alloc);
    let mut left = values;
    while let Some((value, rest)) = left.split_first() {
        numbers.push(value.as_u64().unwrap_or(0))?;
        left = rest;
    }
    Ok(numbers)
}

/// The values of a list, none where the member is no list.
fn values_at<'v>(object: &'v Value, name: &str) -> &'v [Value]
    ensures { items_view result.now ≡ unwrap_or (option_and_then as_array (get name.now (view object.now))) no_items }
{
    match object.get(name) {
        Some(value) => match value.as_array() {
            Some(values) => values.as_slice(),
            None => &[],
        },
        None => &[],
    }
}

/// The numbers of a list.
#[tactic(auto, unfolding(crate::specs::Members::numbers_at))]
pub fn numbers_at(alloc: Global, object: &Value, name: &str) -> Result<Seq<u64>, NoMemory>
    ensures { IfOk result (λ ns. ns ≡ numbers_at name.now (view object.now)) }
{
    Ok(Seq::from_vec(naturals_in(alloc, values_at(object, name))?))
}

/// The act that a value names, by default to pass.
fn act_in(value: &Value) -> Act
    ensures { result ≡ act_in (view value.now) }
{
    act_of(value.as_str().unwrap_or("")).unwrap_or(Act::Pass)
}

/// The act of each value.
fn acts_in(alloc: Global, values: &[Value]) -> Result<Vec<Act>, NoMemory>
    ensures { IfOk result (λ acts. acts.items ≡ acts_in (items_view values.now)) }
{
    let mut acts = Vec::new(alloc);
    let mut left = values;
    while let Some((value, rest)) = left.split_first() {
        acts.push(act_in(value))?;
        left = rest;
    }
    Ok(acts)
}

/// The acts of a list.
#[tactic(auto, unfolding(crate::specs::Members::acts_at))]
pub fn acts_at(alloc: Global, object: &Value, name: &str) -> Result<Seq<Act>, NoMemory>
    ensures { IfOk result (λ acts. acts ≡ acts_at name.now (view object.now)) }
{
    Ok(Seq::from_vec(acts_in(alloc, values_at(object, name))?))
}
