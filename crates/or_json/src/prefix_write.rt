ghost use Rattle.std.specs.Prelude.{◌≡◌, ◌++◌, IfOk, IsTrue, OnOk, Some};
ghost use Rattle.json.specs.Tree.{json_tokens};
ghost use Rattle.serde_json.specs.Written.{outline};
ghost use Rattle.or_json.specs.Appended.{Appends};
ghost use Rattle.or_json.specs.Writing.{prefixes_data, prefixes_text};
ghost use Rattle.or_json.specs.Reading.{prefixes_of, is_prefix_record};

use crate::items::write_items;
use crate::member::write_text;
use json::Writer;
use or_base::{Bytes, NoMemory, PrefixDb};
use std::alloc::Global;

/// Appends a prefix record.
#[tactic(auto, unfolding(crate::specs::Writing::prefixes_data))]
fn write_prefix_db(alloc: Global, out: &mut Writer, db: &PrefixDb) -> Result<(), NoMemory>
    ensures { OnOk result (Appends out.old out.new (json_tokens (outline (prefixes_data db.now)))) }
{
    out.begin_object()?;
    write_text(out, "node", db.node.as_str())?;
    out.key("entries")?;
    out.begin_array()?;
    write_items(alloc, out, db.entries.as_slice())?;
    out.end_object()?;
    Ok(())
}

/// The text of a prefix record. A record that keeps the limits is the reading of its text.
#[tactic(auto, using(crate::proofs::Texts::text_of_tokens, crate::proofs::PrefixesAgain::prefixes_again))]
pub fn prefixes_text(alloc: Global, db: &PrefixDb) -> Result<Bytes, NoMemory>
    ensures text { IfOk result (λ text. text ≡ prefixes_text db.now) }
    ensures read_again { IsTrue (is_prefix_record db.now) → prefixes_of (prefixes_text db.now) ≡ Some db.now }
{
    let mut out = Writer::new(Vec::new(alloc));
    write_prefix_db(alloc, &mut out, db)?;
    Ok(Bytes::from_vec(out.into_inner()))
}
