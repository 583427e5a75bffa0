ghost use Rattle.std.specs.Prelude.{◌≡◌, ◌+◌, ◌<◌, ◌^◌, ◌++◌, [], None, false, OnOk, IfOk, string_bytes};
ghost use Rattle.net_laboratory.specs.Amounts.{with_key, with_key_owner, with_owner, with_node_prefix, with_offer, with_record_keys, is_owned, is_offered, is_settle, after_tick, settle_count};

use crate::names::Names;
use net_laboratory::{Command, KeyOwner, NodeDecl, NodePrefix};
use or_base::{Key, Kind, Name, NoMemory, Prefix};
use std::alloc::Global;

/// What the declarations and commands so far amount to.
#[derive(Drop)]
pub struct Tally {
    /// The distinct keys.
    pub keys: Names,
    pub owners: Vec<KeyOwner>,
    pub offers: Vec<NodePrefix>,
    /// How many settles there are.
    pub settles: u64,
    /// The last command is a settle.
    pub is_settled: bool,
    /// The moment of the last tick.
    pub moment: Option<u64>,
}

impl Tally {
    /// That of no lines.
    pub fn new(alloc: Global) -> Tally
        ensures keys { result.keys ≡ [] }
        ensures owners { result.owners.items ≡ [] }
        ensures offers { result.offers.items ≡ [] }
        ensures settles { result.settles ≡ 0 }
        ensures is_settled { result.is_settled ≡ false }
        ensures moment { result.moment ≡ None }
    {
        Tally {
            keys: Names::new(alloc),
            owners: Vec::new(alloc),
            offers: Vec::new(alloc),
            settles: 0,
            is_settled: false,
            moment: None,
        }
    }
}

/// The key is owned.
fn is_owned(owners: &[KeyOwner], key: &Key) -> bool
    ensures { result ≡ is_owned owners.now key.now }
{
    owners
        .iter()
        .any(|owned| owned.key.as_str() == key.as_str())
}

/// Adds the owner of a key, unless it has one.
fn add_key_owner(owners: &mut Vec<KeyOwner>, key: &Key, node: &Name) -> Result<(), NoMemory>
    ensures { OnOk result (owners.new.items ≡ with_key_owner owners.old.items key.now node.now) }
{
    if !is_owned(owners, key) {
        owners.push(KeyOwner {
            key: key.copied()?,
            node: node.copied()?,
        })?;
    }
    Ok(())
}

/// The node offers the prefix.
pub fn is_offered(offers: &[NodePrefix], node: &str, prefix: &Prefix) -> bool
    ensures { result ≡ is_offered offers.now node.now prefix.now }
{
    offers.iter().any(|offered| offered.node.as_str() == node
        && offered.prefix.is_same_prefix(prefix))
}

/// Adds a prefix of a node, unless it is there.
fn add_node_prefix(
    offers: &mut Vec<NodePrefix>,
    node: &Name,
    prefix: &Prefix,
) -> Result<(), NoMemory>
    ensures { OnOk result (offers.new.items ≡ with_node_prefix offers.old.items node.now prefix.now) }
{
    if !is_offered(offers, node.as_str(), prefix) {
        offers.push(NodePrefix {
            node: node.copied()?,
            prefix: *prefix,
        })?;
    }
    Ok(())
}

/// Adds the key of a set or own command.
fn count_key(alloc: Global, keys: &mut Names, command: &Command) -> Result<(), NoMemory>
    ensures { OnOk result (keys.new ≡ with_key keys.old command.now) }
{
    match command {
        Command::Set { pair, .. } => keys.add(alloc, pair.key.as_str())?,
        Command::Own { key, .. } => keys.add(alloc, key.as_str())?,
        _other => {}
    }
    Ok(())
}

/// Adds the owner that an own command names.
fn count_owner(owners: &mut Vec<KeyOwner>, command: &Command) -> Result<(), NoMemory>
    ensures { OnOk result (owners.new.items ≡ with_owner owners.old.items command.now) }
{
    if let Command::Own { node, key, .. } = command {
        add_key_owner(owners, key, node)?;
    }
    Ok(())
}

/// Adds the prefix that a command advertises or aggregates.
fn count_offer(offers: &mut Vec<NodePrefix>, command: &Command) -> Result<(), NoMemory>
    ensures { OnOk result (offers.new.items ≡ with_offer offers.old.items command.now) }
{
    match command {
        Command::Advertise { node, entry } => add_node_prefix(offers, node, &entry.prefix)?,
        Command::Aggregate { node, prefix, .. } => add_node_prefix(offers, node, prefix)?,
        _other => {}
    }
    Ok(())
}

/// The command is a settle.
pub fn is_settle(command: &Command) -> bool
    ensures { result ≡ is_settle command.now }
{
    matches!(command, Command::Settle { .. })
}

/// How many settles there are with one more command.
fn settles_after(settles: u64, command: &Command) -> u64
    requires { settles < 2 ^ 63 }
    ensures { result ≡ settles + settle_count command.now }
{
    if is_settle(command) {
        settles + 1
    } else {
        settles
    }
}

/// The moment of the last tick, with one more command.
fn moment_after(moment: Option<u64>, command: &Command) -> Option<u64>
    ensures { result ≡ after_tick moment command.now }
{
    match command {
        Command::Tick { to } => Some(*to),
        _other => moment,
    }
}

/// A text and then the node's name.
pub fn record_key(alloc: Global, kind: &str, node: &str) -> Result<String, NoMemory>
    ensures { IfOk result (λ key. string_bytes key ≡ kind.now ++ node.now) }
{
    let mut key = String::from_str(alloc, kind)?;
    key.push_str(node)?;
    Ok(key)
}

impl Tally {
    /// Adds the keys of the two records that a node of a full laboratory publishes.
    pub fn count_node(&mut self, alloc: Global, kind: Kind, node: &NodeDecl) -> Result<(), NoMemory>
        ensures keys { OnOk result (self.new.keys ≡ with_record_keys kind self.old.keys node.now) }
        ensures owners { OnOk result (self.new.owners ≡ self.old.owners) }
        ensures offers { OnOk result (self.new.offers ≡ self.old.offers) }
        ensures settles { OnOk result (self.new.settles ≡ self.old.settles) }
        ensures is_settled { OnOk result (self.new.is_settled ≡ self.old.is_settled) }
        ensures moment { OnOk result (self.new.moment ≡ self.old.moment) }
    {
        if kind == Kind::Full {
            let link_record = record_key(alloc, "adj:", node.name.as_str())?;
            let prefix_record = record_key(alloc, "prefix:", node.name.as_str())?;
            self.keys.add(alloc, link_record.as_str())?;
            self.keys.add(alloc, prefix_record.as_str())?;
        }
        Ok(())
    }

    /// Adds what one more command amounts to.
    pub fn count(&mut self, alloc: Global, command: &Command) -> Result<(), NoMemory>
        requires { self.old.settles < 2 ^ 63 }
        ensures keys { OnOk result (self.new.keys ≡ with_key self.old.keys command.now) }
        ensures owners { OnOk result (self.new.owners.items ≡ with_owner self.old.owners.items command.now) }
        ensures offers { OnOk result (self.new.offers.items ≡ with_offer self.old.offers.items command.now) }
        ensures settles { OnOk result (self.new.settles ≡ self.old.settles + settle_count command.now) }
        ensures is_settled { OnOk result (self.new.is_settled ≡ is_settle command.now) }
        ensures moment { OnOk result (self.new.moment ≡ after_tick self.old.moment command.now) }
    {
        count_key(alloc, &mut self.keys, command)?;
        count_owner(&mut self.owners, command)?;
        count_offer(&mut self.offers, command)?;
        self.settles = settles_after(self.settles, command);
        self.is_settled = is_settle(command);
        self.moment = moment_after(self.moment, command);
        Ok(())
    }
}
