//! The single lines, each appended to the text and ended by LF.

ghost use Rattle.std.specs.Prelude.{◌≡◌, ◌++◌, OnOk, string_bytes};
ghost use Rattle.std.specs.Fmt.{decimal};
ghost use Rattle.net_report.specs.Report.{settle_line, store_line, hex_text, left_text, value_text, key_line, sync_line, turn_line};

use crate::written::ReportLine;
use net_record::NodeMark;
use or_base::{Key, KvValue, Name, NoMemory, SyncDone, TurnDone};

/// `settle <k> moment <moment>`: the k-th settle, from 1, and its moment in milliseconds.
#[tactic(auto, unfolding(crate::specs::Report::settle_line))]
pub(crate) fn settle_line(out: &mut String, k: u64, moment: u64) -> Result<(), NoMemory>
    ensures { OnOk result (string_bytes out.new ≡ string_bytes out.old ++ settle_line k moment) }
{
    write!(out, "settle {k} moment {moment}\n")?;
    Ok(())
}

/// `store <node> entries <journal length> stale <count>`.
#[tactic(auto, unfolding(crate::specs::Report::store_line))]
pub(crate) fn store_line(out: &mut String, node: &Name, mark: &NodeMark) -> Result<(), NoMemory>
    ensures { OnOk result (string_bytes out.new ≡ string_bytes out.old ++ store_line node.now mark.now) }
{
    let name = node.as_str();
    let entries = mark.entries;
    let stale = mark.stale;
    write!(out, "store {name} entries {entries} stale {stale}\n")?;
    Ok(())
}

/// Bytes in lower case hex, `-` where there are none.
pub(crate) fn hex_text(out: &mut String, bytes: &[u8]) -> Result<(), NoMemory>
    ensures { OnOk result (string_bytes out.new ≡ string_bytes out.old ++ hex_text bytes.now) }
{
    if bytes.is_empty() {
        out.push_str("-")?;
    } else {
        let text = hex::encode(*out.allocator(), bytes)?;
        out.push_str(text.as_str())?;
    }
    Ok(())
}

/// What is left at a moment of the lifetime of a value, in milliseconds, `-` where it lives for ever.
fn left_text(
    out: &mut String,
    ttl: Option<u64>,
    merged_at: u64,
    moment: u64,
) -> Result<(), NoMemory>
    ensures { OnOk result (string_bytes out.new ≡ string_bytes out.old ++ left_text ttl merged_at moment) }
{
    match ttl {
        None => out.push_str("-")?,
        Some(ttl) => {
            // The deadline can be past the range of u64.
            let deadline = u128::from(merged_at) + u128::from(ttl);
            let left = deadline.saturating_sub(u128::from(moment));
            write!(out, "{left}")?;
        }
    }
    Ok(())
}

/// `<version> <originator> <hex> <ttl version>`
#[tactic(auto, unfolding(crate::specs::Report::value_text))]
pub(crate) fn value_text(out: &mut String, value: &KvValue) -> Result<(), NoMemory>
    ensures { OnOk result (string_bytes out.new ≡ string_bytes out.old ++ value_text value.now) }
{
    let version = value.version;
    let originator = value.originator.as_str();
    write!(out, "{version} {originator} ")?;
    hex_text(out, value.value.as_slice())?;
    let ttl_version = value.ttl_version;
    write!(out, " {ttl_version}")?;
    Ok(())
}

/// `key <key> <value> <left>`, as it is at the moment.
#[tactic(auto, unfolding(crate::specs::Report::key_line))]
pub(crate) fn key_line(
    out: &mut String,
    key: &Key,
    value: &KvValue,
    merged_at: u64,
    moment: u64,
) -> Result<(), NoMemory>
    ensures { OnOk result (string_bytes out.new ≡ string_bytes out.old ++ key_line key.now value.now merged_at moment) }
{
    let key = key.as_str();
    write!(out, "key {key} ")?;
    value_text(out, value)?;
    out.push_str(" ")?;
    left_text(out, value.ttl, merged_at, moment)?;
    out.push_str("\n")?;
    Ok(())
}

/// `sync <link> <session> <a0> <b0> <withheld>`: a full sync that was finished.
impl ReportLine for SyncDone {
    ghost line = { sync_line };

    #[tactic(auto, unfolding(crate::specs::Report::sync_line))]
    fn write_line(&self, out: &mut String) -> Result<(), NoMemory> {
        let link = self.link;
        let session = self.session;
        write!(out, "sync {link} {session} ")?;
        let a0 = self.a0;
        let b0 = self.b0;
        let withheld = self.withheld;
        write!(out, "{a0} {b0} {withheld}\n")?;
        Ok(())
    }
}

/// A text and then a number.
fn text_and_number(out: &mut String, text: &str, number: u64) -> Result<(), NoMemory>
    ensures { OnOk result (string_bytes out.new ≡ string_bytes out.old ++ (text.now ++ decimal number)) }
{
    out.push_str(text)?;
    write!(out, "{number}")?;
    Ok(())
}

/// `{"do":"turn","lane":<lane>,"at":<at>}`
impl ReportLine for TurnDone {
    ghost line = { turn_line };

    fn write_line(&self, out: &mut String) -> Result<(), NoMemory> {
        text_and_number(out, "{\"do\":\"turn\",\"lane\":", u64::from(self.lane()))?;
        text_and_number(out, ",\"at\":", self.at())?;
        out.push_str("}\n")?;
        Ok(())
    }
}
