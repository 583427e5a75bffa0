ghost use Rattle.std.specs.Prelude.{◌≡◌, codes, option_copied, Some, IfOk, IfSome};
ghost use Rattle.ls_graph.specs.State.{IsSoundDatabase};
ghost use Rattle.ls_records.specs.Records.{keeps_metrics};
ghost use Rattle.ls_records.specs.Step.{rest_after, link_record_under, prefix_record_under};

use or_base::{AdjDb, Key, KvValue, MOST_METRIC, Name, NoMemory, PrefixDb};
use or_json::{adj_of, prefixes_of};
use std::alloc::Global;

/// What follows the start, in a key that begins so.
pub fn rest_after<'a>(start: &str, key: &'a Key) -> Option<&'a str>
    ensures { option_copied result ≡ rest_after start.now key.now }
{
    key.as_str().strip_prefix(start)
}

/// The text as a name.
pub fn name_of(alloc: Global, text: &str) -> Result<Name, NoMemory>
    ensures { IfOk result (λ name. name ≡ text.now) }
{
    Ok(Name::from_string(String::from_str(alloc, text)?))
}

/// The metrics are within their limit.
fn keeps_metrics(db: &AdjDb) -> bool
    ensures { result ≡ keeps_metrics db.now }
{
    db.adjacencies.as_slice().iter().all(|adjacency| 1 <= adjacency.metric
        && adjacency.metric <= MOST_METRIC)
}

/// The link record that is held under the key of a node.
#[tactic(auto, unfolding(crate::specs::Step::link_record_under, crate::specs::Records::link_record_in))]
fn read_link_record(
    alloc: Global,
    key: &Key,
    node: &Name,
    value: Option<&KvValue>,
) -> Result<Option<AdjDb>, NoMemory>
    requires { rest_after (codes "adj:") key.now ≡ Some node.now }
    ensures { IfOk result (λ db. db ≡ link_record_under key.now (option_copied value.entry)) }
{
    let Some(value) = value else {
        return Ok(None);
    };
    match adj_of(alloc, value.value.as_slice())? {
        Some(db) => Ok(if db.node == *node && keeps_metrics(&db) {
            Some(db)
        } else {
            None
        }),
        None => Ok(None),
    }
}

/// The link record that is held under the key of a node, which it names.
pub fn link_record_under(
    alloc: Global,
    key: &Key,
    node: &Name,
    value: Option<&KvValue>,
) -> Result<Option<AdjDb>, NoMemory>
    requires { rest_after (codes "adj:") key.now ≡ Some node.now }
    ensures record { IfOk result (λ db. db ≡ link_record_under key.now (option_copied value.entry)) }
    ensures sound { IfOk result (λ db. IfSome db (λ d. IsSoundDatabase d × (d.node ≡ node.now))) }
{
    let db = read_link_record(alloc, key, node, value)?;
    Ok(db)
}

/// The prefix record that is held under the key of a node.
#[tactic(auto, unfolding(crate::specs::Step::prefix_record_under, crate::specs::Records::prefix_record_in))]
pub fn prefix_record_under(
    alloc: Global,
    key: &Key,
    node: &Name,
    value: Option<&KvValue>,
) -> Result<Option<PrefixDb>, NoMemory>
    requires { rest_after (codes "prefix:") key.now ≡ Some node.now }
    ensures { IfOk result (λ db. db ≡ prefix_record_under key.now (option_copied value.entry)) }
{
    let Some(value) = value else {
        return Ok(None);
    };
    match prefixes_of(alloc, value.value.as_slice())? {
        Some(db) => Ok(if db.node == *node { Some(db) } else { None }),
        None => Ok(None),
    }
}
