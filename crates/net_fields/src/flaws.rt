ghost use Rattle.std.specs.Prelude.{◌≡◌};
ghost use Rattle.serde_json.specs.View.{view};
ghost use Rattle.net_fields.specs.Flaws.{has_flaw, is_limited, takes_prefix, takes_acts, can_have};

use crate::form::Form;
use crate::forms::{fits, is_long, is_no_prefix, is_no_script};
use serde_json::Value;

/// What can be wrong with the value of a field.
#[derive(Clone, Copy, Debug, PartialEq, Eq)]
pub(crate) enum Flaw {
    /// The form doesn't take it.
    Unfit,
    /// It is a text that is too long.
    Long,
    /// It is a text that should be a prefix and isn't.
    NoPrefix,
    /// It is a list that should be a script and isn't.
    NoScript,
}

/// The value of a field of this form has the flaw.
pub(crate) fn has_flaw(flaw: Flaw, form: Form, value: &Value) -> bool
    ensures { result ≡ has_flaw flaw form (view value.now) }
{
    match flaw {
        Flaw::Unfit => !fits(form, value),
        Flaw::Long => is_long(form, value),
        Flaw::NoPrefix => is_no_prefix(form, value),
        Flaw::NoScript => is_no_script(form, value),
    }
}

/// A text of the form can be too long.
fn is_limited(form: Form) -> bool
    ensures { result ≡ is_limited form }
{
    matches!(
        form,
        Form::Name { longest: _ } | Form::Key | Form::Hex | Form::Text
    )
}

/// The form is that of a prefix.
fn takes_prefix(form: Form) -> bool
    ensures { result ≡ takes_prefix form }
{
    matches!(form, Form::Prefix)
}

/// The form is that of a list of acts.
fn takes_acts(form: Form) -> bool
    ensures { result ≡ takes_acts form }
{
    matches!(form, Form::Acts)
}

/// Some value can have the flaw for this form.
pub(crate) fn can_have(flaw: Flaw, form: Form) -> bool
    ensures { result ≡ can_have flaw form }
{
    match flaw {
        Flaw::Unfit => true,
        Flaw::Long => is_limited(form),
        Flaw::NoPrefix => takes_prefix(form),
        Flaw::NoScript => takes_acts(form),
    }
}
