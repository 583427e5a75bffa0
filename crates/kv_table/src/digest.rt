ghost use Rattle.std.specs.Prelude.{◌≡◌, IfOk};
ghost use Rattle.kv_table.specs.Held.{row_shown};
ghost use Rattle.kv_table.specs.Digest.{digest_row, digest};

use crate::held::HeldRow;
use crate::table::KvTable;
use or_base::{DigestRow, NoMemory};

/// The row that tells of a held key.
fn digest_row(held: HeldRow<'_>) -> Result<DigestRow, NoMemory>
    ensures { IfOk result (λ row. row ≡ digest_row (row_shown held.entry)) }
{
    Ok(DigestRow {
        key: held.key.copied()?,
        version: held.value.version,
        originator: held.value.originator.copied()?,
        hash: held.hash,
        ttl_version: held.value.ttl_version,
    })
}

impl KvTable {
    /// One row for each key that is held, in byte order of keys. A value is hashed where no hash of it is kept yet.
    #[tactic(auto, using(crate::proofs::Rows::digest_is))]
    pub fn digest(&self) -> Result<Vec<DigestRow>, NoMemory>
        ensures { IfOk result (λ rows. rows.items ≡ digest self.now) }
    {
        let held_rows = self.held_rows()?;
        let mut rows = Vec::with_capacity(self.alloc(), held_rows.len())?;
        for held in held_rows {
            rows.push(digest_row(held)?)?;
        }
        Ok(rows)
    }
}
