ghost use Rattle.std.specs.Prelude.{◌≡◌, ◌++◌, IfOk};
ghost use Rattle.or_json.specs.Keys.{link_record_key, prefix_record_key};

use or_base::{Key, Name, NoMemory};
use std::alloc::Global;

/// A text followed by the node's name, as a key.
fn key_of(alloc: Global, kind: &str, node: &Name) -> Result<Key, NoMemory>
    ensures { IfOk result (λ key. key ≡ kind.now ++ node.now) }
{
    let mut key = String::from_str(alloc, kind)?;
    key.push_str(node.as_str())?;
    Ok(Key::from_string(key))
}

/// The key under which a node publishes its link record: `adj:` and the node's name.
pub fn link_record_key(alloc: Global, node: &Name) -> Result<Key, NoMemory>
    ensures { IfOk result (λ key. key ≡ link_record_key node.now) }
{
    key_of(alloc, "adj:", node)
}

/// The key under which a node publishes its prefix record: `prefix:` and the node's name.
pub fn prefix_record_key(alloc: Global, node: &Name) -> Result<Key, NoMemory>
    ensures { IfOk result (λ key. key ≡ prefix_record_key node.now) }
{
    key_of(alloc, "prefix:", node)
}
