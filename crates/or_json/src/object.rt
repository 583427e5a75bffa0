ghost use Rattle.std.specs.Prelude.{◌≡◌, IfOk, option_map, option_and_then};
ghost use Rattle.or_base.specs.Limits.{is_node_name, is_interface_name};
ghost use Rattle.serde_json.specs.Find.{get, as_str};
ghost use Rattle.serde_json.specs.View.{view, items_view};
ghost use Rattle.or_json.specs.Reading.{text_member, number_member, flag_member, items_member, prefix_member, json_in};

use or_base::{Name, NoMemory, Prefix, is_interface_name, is_node_name};
use or_prefix::read_prefix;
use serde_json::Value;
use std::alloc::Global;

/// The JSON value that a text is. None where it is none, or isn't UTF-8.
#[tactic(auto, unfolding(crate::specs::Reading::json_in), using(crate::proofs::Texts::json_in_utf8, crate::proofs::Texts::json_in_none))]
pub fn json_in(alloc: Global, text: &[u8]) -> Result<Option<Value>, NoMemory>
    ensures { IfOk result (λ found. option_map view found ≡ json_in text.now) }
{
    match Value::from_slice(alloc, text) {
        Ok(value) => Ok(Some(value)),
        Err(error) if error.is_memory() => Err(NoMemory),
        Err(_error) => Ok(None),
    }
}

/// The text of a member.
fn text_member<'v>(object: &'v Value, name: &str) -> Option<&'v str>
    ensures { option_map (λ text. text.now) result ≡ option_and_then as_str (get name.now (view object.now)) }
{
    object.get(name).and_then(Value::as_str)
}

/// The name of a node, in a member.
pub fn node_name_member(alloc: Global, object: &Value, name: &str) -> Result<Option<Name>, NoMemory>
    ensures { IfOk result (λ found. found ≡ text_member is_node_name name.now (view object.now)) }
{
    let Some(text) = text_member(object, name) else {
        return Ok(None);
    };
    if !is_node_name(text.as_bytes()) {
        return Ok(None);
    }
    Ok(Some(Name::from_string(String::from_str(alloc, text)?)))
}

/// The name of an interface, in a member.
pub fn interface_name_member(
    alloc: Global,
    object: &Value,
    name: &str,
) -> Result<Option<Name>, NoMemory>
    ensures { IfOk result (λ found. found ≡ text_member is_interface_name name.now (view object.now)) }
{
    let Some(text) = text_member(object, name) else {
        return Ok(None);
    };
    if !is_interface_name(text.as_bytes()) {
        return Ok(None);
    }
    Ok(Some(Name::from_string(String::from_str(alloc, text)?)))
}

/// The number of a member, from the one to the other.
pub fn number_member(least: u32, most: u32, object: &Value, name: &str) -> Option<u32>
    ensures { result ≡ number_member least most name.now (view object.now) }
{
    let n = object.get(name)?.as_u64()?;
    if u64::from(least) <= n && n <= u64::from(most) {
        Some(n as u32)
    } else {
        None
    }
}

/// The `true` or `false` of a member.
pub fn flag_member(object: &Value, name: &str) -> Option<bool>
    ensures { result ≡ flag_member name.now (view object.now) }
{
    object.get(name).and_then(Value::as_bool)
}

/// The items of a member.
pub fn items_member<'v>(object: &'v Value, name: &str) -> Option<&'v [Value]>
    ensures { option_map (λ values. items_view values.now) result ≡ items_member name.now (view object.now) }
{
    let values = object.get(name)?.as_array()?;
    Some(values.as_slice())
}

/// The prefix that a member says.
pub fn prefix_member(object: &Value, name: &str) -> Option<Prefix>
    ensures { result ≡ prefix_member name.now (view object.now) }
{
    let text = text_member(object, name)?;
    match read_prefix(text.as_bytes()) {
        Ok(prefix) => Some(prefix),
        Err(_fault) => None,
    }
}
