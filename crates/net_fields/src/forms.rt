ghost use Rattle.std.specs.Prelude.{◌≡◌};
ghost use Rattle.std.specs.List.{list_all};
ghost use Rattle.serde_json.specs.View.{view};
ghost use Rattle.net_fields.specs.Forms.{is_name, is_key_text, is_hex, is_hex_byte, kind_of, show_of, act_of, is_number_in, are_numbers, fits, is_long, is_no_prefix, is_no_script, names_act};

use crate::form::Form;
use net_laboratory::{MOST_ACTS, Show};
use or_base::{Act, Kind, MOST_KEY_BYTES, MOST_VALUE_BYTES, has_key_bytes, has_name_bytes};
use or_prefix::read_prefix;
use serde_json::Value;

/// At least one byte, each of which may stand in a name.
fn is_name(text: &str) -> bool
    ensures { result ≡ is_name text.now }
{
    1 <= text.len() && has_name_bytes(text.as_bytes())
}

/// At least one byte, each of which may stand in a key.
fn is_key_text(text: &str) -> bool
    ensures { result ≡ is_key_text text.now }
{
    1 <= text.len() && has_key_bytes(text.as_bytes())
}

/// A hexadecimal digit of either case. All three ranges are asked, since branches on random digits are predicted badly.
fn is_hex_byte(byte: u8) -> bool
    ensures { result ≡ is_hex_byte byte }
{
    let is_digit = matches!(byte, b'0'..=b'9');
    let is_lower = matches!(byte, b'a'..=b'f');
    let is_upper = matches!(byte, b'A'..=b'F');
    is_digit | is_lower | is_upper
}

/// Each byte is a hexadecimal digit.
fn has_hex_bytes(text: &[u8]) -> bool
    ensures { result ≡ list_all is_hex_byte text.now }
{
    text.iter().all(|&byte| is_hex_byte(byte))
}

/// An even number of hexadecimal digits.
fn is_hex(text: &str) -> bool
    ensures { result ≡ is_hex text.now }
{
    text.len() % 2 == 0 && has_hex_bytes(text.as_bytes())
}

/// The kind of laboratory of this name.
#[tactic(auto, unfolding(crate::specs::Forms::kind_of))]
pub(crate) fn kind_of(text: &str) -> Option<Kind>
    ensures { result ≡ kind_of text.now }
{
    match text {
        "stores" => Some(Kind::Stores),
        "full" => Some(Kind::Full),
        _ => None,
    }
}

/// What the report of a settle shows under this name.
#[tactic(auto, unfolding(crate::specs::Forms::show_of))]
pub(crate) fn show_of(text: &str) -> Option<Show>
    ensures { result ≡ show_of text.now }
{
    match text {
        "both" => Some(Show::Both),
        "stores" => Some(Show::Stores),
        "routes" => Some(Show::Routes),
        "none" => Some(Show::Nothing),
        _ => None,
    }
}

/// The act of this name.
#[tactic(auto, unfolding(crate::specs::Forms::act_of))]
pub(crate) fn act_of(text: &str) -> Option<Act>
    ensures { result ≡ act_of text.now }
{
    match text {
        "pass" => Some(Act::Pass),
        "drop" => Some(Act::Drop),
        "twice" => Some(Act::Twice),
        "late1" => Some(Act::Late(1)),
        "late2" => Some(Act::Late(2)),
        "late3" => Some(Act::Late(3)),
        "late4" => Some(Act::Late(4)),
        "late5" => Some(Act::Late(5)),
        "late6" => Some(Act::Late(6)),
        "late7" => Some(Act::Late(7)),
        "late8" => Some(Act::Late(8)),
        "late9" => Some(Act::Late(9)),
        _ => None,
    }
}

/// A JSON number from the one to the other, written without sign, fraction and exponent.
fn is_number_in(least: u64, most: u64, value: &Value) -> bool
    ensures { result ≡ is_number_in least most (view value.now) }
{
    value.as_u64().is_some_and(|n| least <= n && n <= most)
}

/// Each value is such a number.
fn all_numbers(least: u64, most: u64, values: &[Value]) -> bool
    ensures { result ≡ list_all (λ v. is_number_in least most (view v)) values.now }
{
    values.iter().all(|value| is_number_in(least, most, value))
}

/// A list of at most so many such numbers.
#[tactic(auto, using(crate::proofs::Lists::items))]
fn are_numbers(count: u64, least: u64, most: u64, value: &Value) -> bool
    ensures { result ≡ are_numbers count least most (view value.now) }
{
    match value.as_array() {
        Some(values) => values.len() as u64 <= count && all_numbers(least, most, values.as_slice()),
        None => false,
    }
}

/// The form takes the value. How long it is, and what it names, is asked elsewhere.
#[tactic(auto, unfolding(crate::specs::Forms::fits))]
pub(crate) fn fits(form: Form, value: &Value) -> bool
    ensures { result ≡ fits form (view value.now) }
{
    match form {
        Form::Text => value.is_string(),
        Form::Name { longest: _ } => value.as_str().is_some_and(|text| is_name(text)),
        Form::Node => value.as_str().is_some_and(|text| is_name(text)),
        Form::Link => value.is_u64(),
        Form::Key => value.as_str().is_some_and(|text| is_key_text(text)),
        Form::Hex => value.as_str().is_some_and(|text| is_hex(text)),
        Form::Number { least, most } => is_number_in(least, most, value),
        Form::Numbers { count, least, most } => are_numbers(count, least, most, value),
        Form::Flag => value.is_boolean(),
        Form::Kind => value.as_str().is_some_and(|text| kind_of(text).is_some()),
        Form::Show => value.as_str().is_some_and(|text| show_of(text).is_some()),
        Form::Prefix => value.is_string(),
        Form::Acts => value.is_array(),
    }
}

/// The value is a text past the form's limit.
#[tactic(auto, unfolding(crate::specs::Forms::is_long))]
pub(crate) fn is_long(form: Form, value: &Value) -> bool
    ensures { result ≡ is_long form (view value.now) }
{
    match form {
        Form::Name { longest } => value
            .as_str()
            .is_some_and(|text| longest < text.len() as u64),
        Form::Key => value
            .as_str()
            .is_some_and(|text| MOST_KEY_BYTES < text.len()),
        Form::Hex => value
            .as_str()
            .is_some_and(|text| MOST_VALUE_BYTES < text.len() / 2),
        Form::Text => value
            .as_str()
            .is_some_and(|text| MOST_VALUE_BYTES < text.len()),
        _ => false,
    }
}

/// The value is a text that should be a prefix and isn't.
#[tactic(auto, unfolding(crate::specs::Forms::is_no_prefix))]
pub(crate) fn is_no_prefix(form: Form, value: &Value) -> bool
    ensures { result ≡ is_no_prefix form (view value.now) }
{
    match form {
        Form::Prefix => value
            .as_str()
            .is_some_and(|text| read_prefix(text.as_bytes()).is_err()),
        _ => false,
    }
}

/// The value is a text that names an act.
fn names_act(value: &Value) -> bool
    ensures { result ≡ names_act (view value.now) }
{
    value.as_str().is_some_and(|text| act_of(text).is_some())
}

/// Each value names an act.
fn all_acts(values: &[Value]) -> bool
    ensures { result ≡ list_all (λ v. names_act (view v)) values.now }
{
    values.iter().all(|value| names_act(value))
}

/// The value is a list that should be a script and isn't.
#[tactic(auto, unfolding(crate::specs::Forms::is_no_script), using(crate::proofs::Lists::items))]
pub(crate) fn is_no_script(form: Form, value: &Value) -> bool
    ensures { result ≡ is_no_script form (view value.now) }
{
    match form {
        Form::Acts => match value.as_array() {
            Some(values) => !(1 <= values.len()
                && values.len() <= MOST_ACTS
                && all_acts(values.as_slice())),
            None => false,
        },
        _ => false,
    }
}
