ghost use Rattle.std.specs.Prelude.{◌≡◌, IfOk};
ghost use Rattle.ls_spf.specs.Table.{AreArcs, IsRight};

use crate::rows::all_rows;
use crate::search::least_costs;
use crate::table::PathTable;
use ls_graph::Arc;
use or_base::{Name, NoMemory};
use std::alloc::Global;

/// The table of least walks from `me` over these arcs.
///
/// It looks at each arc a few times, among maps by node. It takes memory for a row for each node that walks reach.
pub fn paths(alloc: Global, me: &Name, arcs: &[Arc]) -> Result<PathTable, NoMemory>
    requires { AreArcs arcs.now }
    ensures me { IfOk result (λ table. table.me ≡ me.now) }
    ensures right { IfOk result (λ table. IsRight arcs.now me.now table.rows) }
{
    let costs = least_costs(alloc, me, arcs)?;
    let rows = all_rows(alloc, me, arcs, &costs)?;
    Ok(PathTable {
        me: me.copied()?,
        rows,
    })
}
