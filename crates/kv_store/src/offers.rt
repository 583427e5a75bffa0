ghost use Rattle.std.specs.Prelude.{◌≡◌, OnOk};
ghost use Rattle.kv_store.specs.Store.{offer_all};

use kv_table::KvTable;
use or_base::{NoMemory, Origin, Pair};

/// Offers pairs, in order. Only those that are merged are copied.
pub fn offer_all(
    table: &mut KvTable,
    pairs: &[Pair],
    now: u64,
    origin: Origin,
) -> Result<(), NoMemory>
    ensures { OnOk result (table.new ≡ offer_all table.old pairs.now now origin) }
{
    for pair in pairs {
        table.offer(pair, now, origin)?;
    }
    Ok(())
}
