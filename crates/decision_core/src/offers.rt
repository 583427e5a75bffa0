ghost use Rattle.std.specs.Prelude.{◌≡◌, [], map, IfOk};
ghost use Rattle.ls_spf.specs.Table.{IsRight};
ghost use Rattle.decision_core.specs.Scratch.{offer_of, offers_for};

use ls_records::Records;
use ls_select::Offer;
use ls_spf::PathTable;
use or_base::{Name, NoMemory, Prefix, PrefixEntry};
use std::alloc::Global;
use std::collections::BTreeMap;

/// The offer of a node that advertises a prefix with this entry.
#[tactic(auto, using(crate::proofs::Paths::paths_tell))]
fn offer_of(
    records: &Records,
    table: &PathTable,
    node: &Name,
    entry: &PrefixEntry,
) -> Result<Offer, NoMemory>
    requires { IsRight records.now.arcs records.now.me table.now.rows }
    ensures { IfOk result (λ offer. offer ≡ offer_of records.now (node.now, entry.now)) }
{
    Ok(Offer {
        node: node.copied()?,
        entry: *entry,
        overload: records.is_overloaded(node),
        cost: table.cost(node),
    })
}

/// The offers of nodes that advertise a prefix, each with its entry.
fn offers_of(
    alloc: Global,
    records: &Records,
    table: &PathTable,
    nodes: &BTreeMap<Name, PrefixEntry>,
) -> Result<Vec<Offer>, NoMemory>
    requires { IsRight records.now.arcs records.now.me table.now.rows }
    ensures { IfOk result (λ offers. offers.items ≡ map (offer_of records.now) nodes.now.entries) }
{
    let mut offers = Vec::new(alloc);
    for (node, entry) in nodes {
        offers.push(offer_of(records, table, node, entry)?)?;
    }
    Ok(offers)
}

/// The offers for a prefix, in the order of the names of the nodes.
pub fn offers_for(
    alloc: Global,
    records: &Records,
    table: &PathTable,
    prefix: &Prefix,
) -> Result<Vec<Offer>, NoMemory>
    requires { IsRight records.now.arcs records.now.me table.now.rows }
    ensures { IfOk result (λ offers. offers.items ≡ offers_for records.now prefix.now) }
{
    match records.advertisers(prefix) {
        Some(nodes) => Ok(offers_of(alloc, records, table, nodes)?),
        None => Ok(Vec::new(alloc)),
    }
}
