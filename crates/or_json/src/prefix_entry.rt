//! A prefix entry, as an item of a prefix record.

ghost use Rattle.std.specs.Prelude.{◌≡◌, ◌++◌, [], ◌∷◌, OnOk};
ghost use Rattle.json.specs.Token.{key, string};
ghost use Rattle.serde_json.specs.View.{view};
ghost use Rattle.or_prefix.specs.Printing.{prefix_text};
ghost use Rattle.or_json.specs.Appended.{Appends};
ghost use Rattle.or_json.specs.Reading.{entry_of};

use crate::items::RecordItem;
use crate::member::{write_number, write_text};
use crate::object::{number_member, prefix_member};
use json::Writer;
use or_base::{MOST_PREFERENCE, NoMemory, Prefix, PrefixEntry};
use or_prefix::prefix_text;
use serde_json::Value;
use std::alloc::Global;
use std::str;

/// Appends a member that is a prefix.
fn write_prefix(
    alloc: Global,
    out: &mut Writer,
    name: &str,
    prefix: &Prefix,
) -> Result<(), NoMemory>
    ensures { OnOk result (Appends out.old out.new
        (key name.now ∷ string (prefix_text prefix.now.v6 prefix.now.bits prefix.now.len) ∷ [])) }
{
    let text = prefix_text(alloc, prefix)?;
    match str::from_utf8(text.as_slice()) {
        Ok(text) => write_text(out, name, text),
        // A prefix is printed in ASCII.
        Err(_fault) => unreachable!(),
    }
}

/// The entry that a value is. It takes no memory.
#[tactic(auto, unfolding(crate::specs::Reading::entry_of))]
fn entry_of(value: &Value) -> Option<PrefixEntry>
    ensures { result ≡ entry_of (view value.now) }
{
    let prefix = prefix_member(value, "prefix")?;
    let path = number_member(0, MOST_PREFERENCE, value, "path")?;
    let source = number_member(0, MOST_PREFERENCE, value, "source")?;
    let distance = number_member(0, MOST_PREFERENCE, value, "distance")?;
    Some(PrefixEntry {
        prefix,
        path,
        source,
        distance,
    })
}

impl RecordItem for PrefixEntry {
    ghost use Rattle.or_json.specs.Writing.{entry_data};
    ghost use Rattle.or_json.specs.Reading.{have_same_prefix};

    ghost item_data = { entry_data };

    ghost item_of = { entry_of };

    ghost has_same_key = { have_same_prefix };

    #[tactic(auto, unfolding(crate::specs::Writing::entry_data))]
    fn write(&self, alloc: Global, out: &mut Writer) -> Result<(), NoMemory> {
        out.begin_object()?;
        write_prefix(alloc, out, "prefix", &self.prefix)?;
        write_number(out, "path", self.path)?;
        write_number(out, "source", self.source)?;
        write_number(out, "distance", self.distance)?;
        out.end_object()?;
        Ok(())
    }

    fn item_of(_alloc: Global, value: &Value) -> Result<Option<PrefixEntry>, NoMemory> {
        Ok(entry_of(value))
    }

    /// They have the same prefix, however it is written.
    fn has_same_key(&self, other: &PrefixEntry) -> bool {
        self.prefix.is_same_prefix(&other.prefix)
    }
}
