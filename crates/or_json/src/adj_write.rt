ghost use Rattle.std.specs.Prelude.{◌≡◌, ◌++◌, IfOk, IsTrue, OnOk, Some};
ghost use Rattle.json.specs.Tree.{json_tokens};
ghost use Rattle.serde_json.specs.Written.{outline};
ghost use Rattle.or_json.specs.Appended.{Appends};
ghost use Rattle.or_json.specs.Writing.{adj_data, adj_text};
ghost use Rattle.or_json.specs.Reading.{adj_of, is_link_record};

use crate::items::write_items;
use crate::member::{write_flag, write_text};
use json::Writer;
use or_base::{AdjDb, Bytes, NoMemory};
use std::alloc::Global;

/// Appends a link record.
#[tactic(auto, unfolding(crate::specs::Writing::adj_data))]
fn write_adj_db(alloc: Global, out: &mut Writer, db: &AdjDb) -> Result<(), NoMemory>
    ensures { OnOk result (Appends out.old out.new (json_tokens (outline (adj_data db.now)))) }
{
    out.begin_object()?;
    write_text(out, "node", db.node.as_str())?;
    write_flag(out, "overload", db.overload)?;
    out.key("adjacencies")?;
    out.begin_array()?;
    write_items(alloc, out, db.adjacencies.as_slice())?;
    out.end_object()?;
    Ok(())
}

/// The text of a link record. A record that keeps the limits is the reading of its text.
#[tactic(auto, using(crate::proofs::Texts::text_of_tokens, crate::proofs::LinksAgain::link_again))]
pub fn adj_text(alloc: Global, db: &AdjDb) -> Result<Bytes, NoMemory>
    ensures text { IfOk result (λ text. text ≡ adj_text db.now) }
    ensures read_again { IsTrue (is_link_record db.now) → adj_of (adj_text db.now) ≡ Some db.now }
{
    let mut out = Writer::new(Vec::new(alloc));
    write_adj_db(alloc, &mut out, db)?;
    Ok(Bytes::from_vec(out.into_inner()))
}
