//! What a line without faults says.

ghost use Rattle.std.specs.Prelude.{◌≡◌, codes, IfOk};
ghost use Rattle.serde_json.specs.View.{view};
ghost use Rattle.net_fields.specs.Members.{text_at, number_or, numbers_at};
ghost use Rattle.net_scenario.specs.Statement.{small_or, node_named, key_at, link_at, prefix_or_any, link_of, originator_at, pair_of, prefix_entry_of, statement_of};
ghost use Rattle.net_scenario.specs.declared.statement.Statement.TheVariants as says;
ghost use Rattle.net_fields.specs.declared.word.Word.TheVariants as word;

use crate::conditions::{interface_a, interface_b};
use crate::statement::Statement;
use net_fields::{
    Word, acts_at, flag_at, kind_at, number_at, number_or, numbers_at, prefix_at, show_at, text_at,
    text_or, value_at,
};
use net_laboratory::{
    Command, DEFAULT_DISTANCE, DEFAULT_METRIC, DEFAULT_PATH, DEFAULT_ROUNDS, DEFAULT_SOURCE,
    LinkDecl, NodeDecl, Turn,
};
use or_base::{Key, KvValue, Name, NoMemory, Pair, Prefix, PrefixEntry};
use serde_json::Value;
use std::alloc::Global;

/// A number of 32 bits.
fn small_or(object: &Value, name: &str, default: u32) -> u32
    ensures { result ≡ small_or name.now default (view object.now) }
{
    (number_or(object, name, u64::from(default)) % (1 << 32)) as u32
}

/// The name that a field gives.
fn name_at(alloc: Global, object: &Value, field: &str) -> Result<Name, NoMemory>
    ensures { IfOk result (λ name. name ≡ text_at field.now (view object.now)) }
{
    Ok(Name::from_string(String::from_str(alloc, text_at(object, field))?))
}

/// The named node.
fn node_named(alloc: Global, object: &Value) -> Result<Name, NoMemory>
    ensures { IfOk result (λ name. name ≡ node_named (view object.now)) }
{
    name_at(alloc, object, "node")
}

/// The key.
fn key_at(alloc: Global, object: &Value) -> Result<Key, NoMemory>
    ensures { IfOk result (λ key. key ≡ key_at (view object.now)) }
{
    Ok(Key::from_string(String::from_str(alloc, text_at(object, "key"))?))
}

/// The link's number.
fn link_at(object: &Value) -> u32
    ensures { result ≡ link_at (view object.now) }
{
    small_or(object, "link", 0)
}

/// The prefix, or that of all IPv4 addresses.
fn prefix_or_any(object: &Value) -> Prefix
    ensures { result ≡ prefix_or_any (view object.now) }
{
    match prefix_at(object, "prefix") {
        Some(prefix) => prefix,
        None => Prefix {
            v6: false,
            bits: 0,
            len: 0,
        },
    }
}

/// The link of a link line.
#[tactic(auto, unfolding(crate::specs::Statement::link_of))]
fn link_of(alloc: Global, object: &Value) -> Result<LinkDecl, NoMemory>
    ensures { IfOk result (λ link. link ≡ link_of (view object.now)) }
{
    Ok(LinkDecl {
        a: name_at(alloc, object, "a")?,
        aif: interface_a(alloc, object)?,
        am: small_or(object, "am", DEFAULT_METRIC),
        b: name_at(alloc, object, "b")?,
        bif: interface_b(alloc, object)?,
        bm: small_or(object, "bm", DEFAULT_METRIC),
    })
}

/// The originator of a value: by default the node.
fn originator_at(alloc: Global, object: &Value) -> Result<Name, NoMemory>
    ensures { IfOk result (λ name. name ≡ originator_at (view object.now)) }
{
    let text = text_or(object, "originator", text_at(object, "node"));
    Ok(Name::from_string(String::from_str(alloc, text)?))
}

/// The pair of a set line.
#[tactic(auto, unfolding(crate::specs::Statement::pair_of))]
fn pair_of(alloc: Global, object: &Value) -> Result<Pair, NoMemory>
    ensures { IfOk result (λ pair. pair ≡ pair_of (view object.now)) }
{
    let value = KvValue {
        version: number_or(object, "version", 0),
        originator: originator_at(alloc, object)?,
        value: value_at(alloc, object)?,
        ttl: number_at(object, "ttl"),
        ttl_version: number_or(object, "ttlv", 0),
    };
    Ok(Pair {
        key: key_at(alloc, object)?,
        value,
    })
}

/// The entry of an advertise line.
#[tactic(auto, unfolding(crate::specs::Statement::prefix_entry_of))]
fn prefix_entry_of(object: &Value) -> PrefixEntry
    ensures { result ≡ prefix_entry_of (view object.now) }
{
    PrefixEntry {
        prefix: prefix_or_any(object),
        path: small_or(object, "path", DEFAULT_PATH),
        source: small_or(object, "source", DEFAULT_SOURCE),
        distance: small_or(object, "distance", DEFAULT_DISTANCE),
    }
}

/// What a settle line does.
#[tactic(auto, unfolding(crate::specs::Statement::statement_of))]
fn settle_of(object: &Value) -> Command
    ensures { says.Command result ≡ statement_of word.Settle (view object.now) }
{
    Command::Settle {
        rounds: number_or(object, "rounds", DEFAULT_ROUNDS),
        show: show_at(object, "show"),
    }
}

/// What a tick line does.
#[tactic(auto, unfolding(crate::specs::Statement::statement_of))]
fn tick_of(object: &Value) -> Command
    ensures { says.Command result ≡ statement_of word.Tick (view object.now) }
{
    Command::Tick {
        to: number_or(object, "to", 0),
    }
}

/// What a set line does.
#[tactic(auto, unfolding(crate::specs::Statement::statement_of))]
fn set_of(alloc: Global, object: &Value) -> Result<Command, NoMemory>
    ensures { IfOk result (λ c. says.Command c ≡ statement_of word.Set (view object.now)) }
{
    Ok(Command::Set {
        node: node_named(alloc, object)?,
        pair: pair_of(alloc, object)?,
    })
}

/// What an own line does.
#[tactic(auto, unfolding(crate::specs::Statement::statement_of))]
fn own_of(alloc: Global, object: &Value) -> Result<Command, NoMemory>
    ensures { IfOk result (λ c. says.Command c ≡ statement_of word.Own (view object.now)) }
{
    Ok(Command::Own {
        node: node_named(alloc, object)?,
        key: key_at(alloc, object)?,
        value: value_at(alloc, object)?,
        ttl: number_at(object, "ttl"),
    })
}

/// What a disown line does.
#[tactic(auto, unfolding(crate::specs::Statement::statement_of))]
fn disown_of(alloc: Global, object: &Value) -> Result<Command, NoMemory>
    ensures { IfOk result (λ c. says.Command c ≡ statement_of word.Disown (view object.now)) }
{
    Ok(Command::Disown {
        node: node_named(alloc, object)?,
        key: key_at(alloc, object)?,
    })
}

/// What a sync line does.
#[tactic(auto, unfolding(crate::specs::Statement::statement_of))]
fn sync_of(alloc: Global, object: &Value) -> Result<Command, NoMemory>
    ensures { IfOk result (λ c. says.Command c ≡ statement_of word.Sync (view object.now)) }
{
    Ok(Command::Sync {
        node: node_named(alloc, object)?,
        link: link_at(object),
    })
}

/// What a restart line does.
#[tactic(auto, unfolding(crate::specs::Statement::statement_of))]
fn restart_of(alloc: Global, object: &Value) -> Result<Command, NoMemory>
    ensures { IfOk result (λ c. says.Command c ≡ statement_of word.Restart (view object.now)) }
{
    Ok(Command::Restart {
        node: node_named(alloc, object)?,
    })
}

/// What an up line does.
#[tactic(auto, unfolding(crate::specs::Statement::statement_of))]
fn up_of(object: &Value) -> Command
    ensures { says.Command result ≡ statement_of word.Up (view object.now) }
{
    Command::Up {
        link: link_at(object),
    }
}

/// What a down line does.
#[tactic(auto, unfolding(crate::specs::Statement::statement_of))]
fn down_of(object: &Value) -> Command
    ensures { says.Command result ≡ statement_of word.Down (view object.now) }
{
    Command::Down {
        link: link_at(object),
    }
}

/// What a script line does.
#[tactic(auto, unfolding(crate::specs::Statement::statement_of))]
fn script_of(alloc: Global, object: &Value) -> Result<Command, NoMemory>
    ensures { IfOk result (λ c. says.Command c ≡ statement_of word.Script (view object.now)) }
{
    Ok(Command::Script {
        link: link_at(object),
        from: name_at(alloc, object, "from")?,
        acts: acts_at(alloc, object, "acts")?,
    })
}

/// What a get line does.
#[tactic(auto, unfolding(crate::specs::Statement::statement_of))]
fn get_of(alloc: Global, object: &Value) -> Result<Command, NoMemory>
    ensures { IfOk result (λ c. says.Command c ≡ statement_of word.Get (view object.now)) }
{
    Ok(Command::Get {
        node: node_named(alloc, object)?,
        key: key_at(alloc, object)?,
    })
}

/// What a drain line does.
#[tactic(auto, unfolding(crate::specs::Statement::statement_of))]
fn drain_of(alloc: Global, object: &Value) -> Result<Command, NoMemory>
    ensures { IfOk result (λ c. says.Command c ≡ statement_of word.Drain (view object.now)) }
{
    Ok(Command::Drain {
        node: node_named(alloc, object)?,
        on: flag_at(object, "on"),
    })
}

/// What a linkdrain line does.
#[tactic(auto, unfolding(crate::specs::Statement::statement_of))]
fn link_drain_of(alloc: Global, object: &Value) -> Result<Command, NoMemory>
    ensures { IfOk result (λ c. says.Command c ≡ statement_of word.LinkDrain (view object.now)) }
{
    Ok(Command::LinkDrain {
        node: node_named(alloc, object)?,
        link: link_at(object),
        on: flag_at(object, "on"),
    })
}

/// What a metric line does.
#[tactic(auto, unfolding(crate::specs::Statement::statement_of))]
fn metric_of(alloc: Global, object: &Value) -> Result<Command, NoMemory>
    ensures { IfOk result (λ c. says.Command c ≡ statement_of word.Metric (view object.now)) }
{
    Ok(Command::Metric {
        node: node_named(alloc, object)?,
        link: link_at(object),
        metric: small_or(object, "metric", 0),
    })
}

/// What an advertise line does.
#[tactic(auto, unfolding(crate::specs::Statement::statement_of))]
fn advertise_of(alloc: Global, object: &Value) -> Result<Command, NoMemory>
    ensures { IfOk result (λ c. says.Command c ≡ statement_of word.Advertise (view object.now)) }
{
    Ok(Command::Advertise {
        node: node_named(alloc, object)?,
        entry: prefix_entry_of(object),
    })
}

/// What a withdraw line does.
#[tactic(auto, unfolding(crate::specs::Statement::statement_of))]
fn withdraw_of(alloc: Global, object: &Value) -> Result<Command, NoMemory>
    ensures { IfOk result (λ c. says.Command c ≡ statement_of word.Withdraw (view object.now)) }
{
    Ok(Command::Withdraw {
        node: node_named(alloc, object)?,
        prefix: prefix_or_any(object),
    })
}

/// What an aggregate line does.
#[tactic(auto, unfolding(crate::specs::Statement::statement_of))]
fn aggregate_of(alloc: Global, object: &Value) -> Result<Command, NoMemory>
    ensures { IfOk result (λ c. says.Command c ≡ statement_of word.Aggregate (view object.now)) }
{
    Ok(Command::Aggregate {
        node: node_named(alloc, object)?,
        prefix: prefix_or_any(object),
        min: small_or(object, "min", 0),
    })
}

/// What an ask line does.
#[tactic(auto, unfolding(crate::specs::Statement::statement_of))]
fn ask_of(alloc: Global, object: &Value) -> Result<Command, NoMemory>
    ensures { IfOk result (λ c. says.Command c ≡ statement_of word.Ask (view object.now)) }
{
    Ok(Command::Ask {
        node: node_named(alloc, object)?,
        prefix: prefix_or_any(object),
    })
}

/// The node of a node line.
fn node_of(alloc: Global, object: &Value) -> Result<NodeDecl, NoMemory>
    ensures { IfOk result (λ node. node ≡ record { name = text_at (codes "name") (view object.now); faults = numbers_at (codes "faults") (view object.now) }) }
{
    Ok(NodeDecl {
        name: name_at(alloc, object, "name")?,
        faults: numbers_at(alloc, object, "faults")?,
    })
}

/// The turn of a turn line.
fn turn_of(object: &Value) -> Turn
    ensures { result ≡ record { lane = small_or (codes "lane") 0 (view object.now); at = number_or (codes "at") 0 (view object.now) } }
{
    Turn {
        lane: small_or(object, "lane", 0),
        at: number_or(object, "at", 0),
    }
}

/// A line that says this command.
fn says(command: Command) -> Statement
    ensures { result ≡ says.Command command }
{
    Statement::Command { command }
}

/// What a line of a laboratory says.
#[tactic(auto, unfolding(crate::specs::Statement::statement_of))]
fn lab_of(object: &Value) -> Statement
    ensures { result ≡ statement_of word.Lab (view object.now) }
{
    Statement::Lab {
        kind: kind_at(object, "kind"),
        ttl: number_at(object, "ttl"),
    }
}

/// What a line says that is this object and names this command.
#[tactic(auto, unfolding(crate::specs::Statement::statement_of))]
pub fn statement_of(alloc: Global, word: Word, object: &Value) -> Result<Statement, NoMemory>
    ensures { IfOk result (λ s. s ≡ statement_of word (view object.now)) }
{
    let statement = match word {
        Word::Lab => lab_of(object),
        Word::Node => Statement::Node {
            node: node_of(alloc, object)?,
        },
        Word::Link => Statement::Link {
            link: link_of(alloc, object)?,
        },
        Word::Turn => Statement::Turn {
            turn: turn_of(object),
        },
        Word::Settle => says(settle_of(object)),
        Word::Tick => says(tick_of(object)),
        Word::Set => says(set_of(alloc, object)?),
        Word::Own => says(own_of(alloc, object)?),
        Word::Disown => says(disown_of(alloc, object)?),
        Word::Sync => says(sync_of(alloc, object)?),
        Word::Restart => says(restart_of(alloc, object)?),
        Word::Up => says(up_of(object)),
        Word::Down => says(down_of(object)),
        Word::Script => says(script_of(alloc, object)?),
        Word::Get => says(get_of(alloc, object)?),
        Word::Drain => says(drain_of(alloc, object)?),
        Word::LinkDrain => says(link_drain_of(alloc, object)?),
        Word::Metric => says(metric_of(alloc, object)?),
        Word::Advertise => says(advertise_of(alloc, object)?),
        Word::Withdraw => says(withdraw_of(alloc, object)?),
        Word::Aggregate => says(aggregate_of(alloc, object)?),
        Word::Ask => says(ask_of(alloc, object)?),
    };
    Ok(statement)
}
