ghost use Rattle.std.specs.Prelude.{◌≡◌, IfOk};
ghost use Rattle.kv_sync.specs.Messages.{reply_message, ack_message};

use crate::difference::{Difference, diff};
use kv_table::KvTable;
use or_base::{DigestRow, Msg, NoMemory, Seq};
use std::alloc::Global;

/// The reply to the dump of a session: what is better here and isn't withheld at the moment `now` in milliseconds, and
/// which keys are wanted, with the length of the journal and how many pairs are withheld.
#[tactic(auto, unfolding(crate::specs::Messages::reply_message))]
pub fn reply_to(
    alloc: Global,
    table: &KvTable,
    now: u64,
    session: u64,
    digest: &[DigestRow],
) -> Result<Msg, NoMemory>
    ensures { IfOk result (λ msg. msg ≡ reply_message table.now now session digest.now) }
{
    let Difference { better, wanted } = diff(alloc, digest, table)?;
    let pairs = table.sent_pairs(now, better.as_slice())?;
    Ok(Msg::Reply {
        session,
        b0: table.journal().len() as u64,
        pairs: Seq::from_vec(pairs),
        wanted: Seq::from_vec(wanted),
        withheld: table.withheld_count(now, better.as_slice()),
    })
}

/// The acknowledgement of a session's push. It takes no memory.
pub fn ack(session: u64) -> Msg
    ensures { result ≡ ack_message session }
{
    Msg::Ack { session }
}
