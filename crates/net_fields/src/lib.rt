//! The commands of the scenario language, as JSON objects (RFC 8259): their fields, and what each field takes.
//!
//! The language is data: `specs/Fields.antt` lists the fields of each command, each with a form, and
//! `specs/Forms.antt` says which values a form takes. What is asked of an object whatever was declared before
//! (`specs/Objects.antt`: a field is missing, unknown, of the wrong form, too long, no prefix, no script) is asked of
//! all commands by one definition each, and the functions here compute exactly those. `specs/Members.antt` says what is
//! read of a member; each reading is total, so that what a faulty line says needs no case of its own.
//! `specs/Flaws.antt` says in which forms a value can have a flaw, so that a field of another form isn't looked up.
//!
//! The files: `word` (the commands), `form`, `field` and `fields` (the table), `forms` (what values a form takes),
//! `members` (single members), `flaws` (what can be wrong with the value of a field), `objects` (what is asked of an
//! object).
#![tactic(auto)]

mod field;
mod fields;
mod flaws;
mod form;
mod forms;
mod members;
mod objects;
mod word;

pub use field::Field;
pub use fields::fields_of;
pub use form::Form;
pub use members::{
    acts_at, flag_at, has, kind_at, number_at, number_or, numbers_at, prefix_at, show_at, text_at,
    text_or, value_at,
};
pub use objects::{
    has_bad_prefix, has_bad_script, has_long_field, has_other_member, has_unfit_field,
    is_contradictory, is_field_missing, is_lab, object_in, text_of, word_in,
};
pub use word::{Word, is_for_full, word_of};
