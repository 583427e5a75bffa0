ghost use Rattle.std.specs.Prelude.{◌≡◌, ◌≤◌, ◌<◌, ◌^◌, ◌++◌, [], ◌∷◌, All, IsTrue, length, IfOk, OnOk};
ghost use Rattle.or_base.specs.declared.item.Item.TheVariants.{Persist, Script};
ghost use Rattle.or_actor.specs.declared.output.Output.TheVariants.{To};
ghost use Rattle.or_actor.specs.Fits.{has_small_link, have_small_links};
ghost use Rattle.net_laboratory.specs.Small.{NamesSmallLink};
ghost use Rattle.net_laboratory.specs.Sound.{is_routing_command};
ghost use Rattle.net_laboratory.specs.Limits.{most_links};
ghost use Rattle.net_record.specs.Roles.{roles, most_actors};
ghost use Rattle.net_record.specs.Phases.{ups, module_takes_ticks, takes_ticks, tick_for, ticks, module_restarts, restarts_with, restart_for, restarts, to_module, to_link, issues_of, moment_after, shows_routes, phases_from, phases};
ghost use Rattle.net_record.specs.Small.{IssuesSmallLinks};

use crate::numbering::{link_number, module_number, roles};
use crate::phase::Phase;
use crate::role::{NodeModule, Role};
use net_laboratory::{Command, LinkDecl, Scenario, Show};
use or_actor::Output;
use or_base::{Act, Bytes, Copied, Item, Key, Name, NoMemory, Seq};
use std::alloc::Global;

/// An Up for each link.
fn ups(alloc: Global, all: &[Role], links: &[LinkDecl]) -> Result<Vec<Output>, NoMemory>
    requires few { length all.now ≤ most_actors }
    requires links { length links.now ≤ most_links }
    ensures issues { IfOk result (λ issues. issues.items ≡ ups all.now links.now) }
    ensures small { IfOk result (λ issues. IsTrue (have_small_links issues.items)) }
{
    let mut issues = Vec::new(alloc);
    for (number, _link) in links.iter().enumerate() {
        issues.push(Output::To {
            lane: link_number(all, number as u32),
            item: Item::Up,
        })?;
    }
    Ok(issues)
}

/// A module of a node takes ticks.
fn module_takes_ticks(module_: NodeModule) -> bool
    ensures { result ≡ module_takes_ticks module_ }
{
    match module_ {
        NodeModule::Spark | NodeModule::Store | NodeModule::Fib => true,
        NodeModule::LinkMonitor
        | NodeModule::PrefixManager
        | NodeModule::Decision
        | NodeModule::Desk => false,
    }
}

/// The actor takes ticks.
fn takes_ticks(role: &Role) -> bool
    ensures { result ≡ takes_ticks role.now }
{
    match role {
        Role::Driver => false,
        Role::Node { module, .. } => module_takes_ticks(*module),
        Role::Link { .. } => true,
    }
}

/// Adds a Tick for one actor, if it takes one.
fn add_tick(issues: &mut Vec<Output>, at: u64, number: u32, role: &Role) -> Result<(), NoMemory>
    ensures added { OnOk result (issues.new.items ≡ issues.old.items ++ tick_for at (number, role.now)) }
    ensures small { IsTrue (have_small_links issues.old.items) → OnOk result (IsTrue (have_small_links issues.new.items)) }
{
    if takes_ticks(role) {
        issues.push(Output::To {
            lane: number,
            item: Item::Tick { at },
        })?;
    }
    Ok(())
}

/// Adds a Tick for each actor that takes one.
#[tactic(auto, using(crate::proofs::Enumerated::flat_more))]
fn add_ticks(issues: &mut Vec<Output>, at: u64, all: &[Role]) -> Result<(), NoMemory>
    requires { length all.now ≤ most_actors }
    ensures added { OnOk result (issues.new.items ≡ issues.old.items ++ ticks all.now at) }
    ensures small { IsTrue (have_small_links issues.old.items) → OnOk result (IsTrue (have_small_links issues.new.items)) }
{
    for (number, role) in all.iter().enumerate() {
        add_tick(issues, at, number as u32, role)?;
    }
    Ok(())
}

/// A module of a node restarts with it.
fn module_restarts(module_: NodeModule) -> bool
    ensures { result ≡ module_restarts module_ }
{
    match module_ {
        NodeModule::Spark | NodeModule::Store => true,
        NodeModule::LinkMonitor
        | NodeModule::PrefixManager
        | NodeModule::Decision
        | NodeModule::Fib
        | NodeModule::Desk => false,
    }
}

/// The actor is a module of the node with this name, and restarts with it.
fn restarts_with(name: &Name, role: &Role) -> bool
    ensures { result ≡ restarts_with name.now role.now }
{
    match role {
        Role::Node { module, node, .. } => {
            module_restarts(*module) && node.as_str() == name.as_str()
        }
        _ => false,
    }
}

/// Adds a Restart for one actor, if it restarts with the node.
fn add_restart(
    issues: &mut Vec<Output>,
    name: &Name,
    number: u32,
    role: &Role,
) -> Result<(), NoMemory>
    ensures added { OnOk result (issues.new.items ≡ issues.old.items ++ restart_for name.now (number, role.now)) }
    ensures small { IsTrue (have_small_links issues.old.items) → OnOk result (IsTrue (have_small_links issues.new.items)) }
{
    if restarts_with(name, role) {
        issues.push(Output::To {
            lane: number,
            item: Item::Restart,
        })?;
    }
    Ok(())
}

/// Adds a Restart for each module of the node that restarts with it.
#[tactic(auto, using(crate::proofs::Enumerated::flat_more))]
fn add_restarts(issues: &mut Vec<Output>, name: &Name, all: &[Role]) -> Result<(), NoMemory>
    requires { length all.now ≤ most_actors }
    ensures added { OnOk result (issues.new.items ≡ issues.old.items ++ restarts all.now name.now) }
    ensures small { IsTrue (have_small_links issues.old.items) → OnOk result (IsTrue (have_small_links issues.new.items)) }
{
    for (number, role) in all.iter().enumerate() {
        add_restart(issues, name, number as u32, role)?;
    }
    Ok(())
}

/// Adds what the driver sends to one actor.
fn add_to(issues: &mut Vec<Output>, lane: u32, item: Item) -> Result<(), NoMemory>
    requires { IsTrue (has_small_link item) }
    ensures added { OnOk result (issues.new.items ≡ issues.old.items ++ To lane item ∷ []) }
    ensures small { IsTrue (have_small_links issues.old.items) → OnOk result (IsTrue (have_small_links issues.new.items)) }
{
    issues.push(Output::To { lane, item })?;
    Ok(())
}

/// Adds an item for a module of the node with this name.
fn add_to_module(
    issues: &mut Vec<Output>,
    all: &[Role],
    module_: NodeModule,
    node: &Name,
    item: Item,
) -> Result<(), NoMemory>
    requires few { length all.now ≤ most_actors }
    requires small { IsTrue (has_small_link item) }
    ensures added { OnOk result (issues.new.items ≡ issues.old.items ++ to_module all.now module_ node.now item) }
    ensures small { IsTrue (have_small_links issues.old.items) → OnOk result (IsTrue (have_small_links issues.new.items)) }
{
    add_to(issues, module_number(all, module_, node), item)
}

/// Adds an item for a link.
fn add_to_link(
    issues: &mut Vec<Output>,
    all: &[Role],
    link: u32,
    item: Item,
) -> Result<(), NoMemory>
    requires few { length all.now ≤ most_actors }
    requires small { IsTrue (has_small_link item) }
    ensures added { OnOk result (issues.new.items ≡ issues.old.items ++ to_link all.now link item) }
    ensures small { IsTrue (have_small_links issues.old.items) → OnOk result (IsTrue (have_small_links issues.new.items)) }
{
    add_to(issues, link_number(all, link), item)
}

/// What the driver sends to a store for a key that its node is to own.
fn persist_item(key: &Key, value: &Bytes, ttl: Option<u64>) -> Result<Item, NoMemory>
    ensures { IfOk result (λ item. item ≡ Persist key.now value.now ttl) }
{
    let key = key.copied()?;
    let value = value.copied()?;
    Ok(Item::Persist { key, value, ttl })
}

/// What it sends to a link for a script.
fn script_item(from: &Name, acts: &Seq<Act>) -> Result<Item, NoMemory>
    ensures { IfOk result (λ item. item ≡ Script from.now acts.now) }
{
    let from = from.copied()?;
    let acts = acts.copied()?;
    Ok(Item::Script { from, acts })
}

/// Adds what the driver sends for a command of a full laboratory.
#[tactic(auto, unfolding(crate::specs::Phases::issues_of))]
fn add_full_issues(
    issues: &mut Vec<Output>,
    all: &[Role],
    command: &Command,
) -> Result<(), NoMemory>
    requires few { length all.now ≤ most_actors }
    requires small { NamesSmallLink command.now }
    requires kind { IsTrue (is_routing_command command.now) }
    ensures added { OnOk result (issues.new.items ≡ issues.old.items ++ issues_of all.now command.now) }
    ensures small { IsTrue (have_small_links issues.old.items) → OnOk result (IsTrue (have_small_links issues.new.items)) }
{
    match command {
        Command::Drain { node, on } => {
            let drain = Item::Drain { on: *on };
            add_to_module(issues, all, NodeModule::LinkMonitor, node, drain)?;
        }
        Command::LinkDrain { node, link, on } => {
            let drain = Item::LinkDrain {
                link: *link,
                on: *on,
            };
            add_to_module(issues, all, NodeModule::LinkMonitor, node, drain)?;
        }
        Command::Metric { node, link, metric } => {
            let metric = Item::Metric {
                link: *link,
                metric: *metric,
            };
            add_to_module(issues, all, NodeModule::LinkMonitor, node, metric)?;
        }
        Command::Advertise { node, entry } => {
            let advertise = Item::Advertise { entry: *entry };
            add_to_module(issues, all, NodeModule::PrefixManager, node, advertise)?;
        }
        Command::Withdraw { node, prefix } => {
            let withdraw = Item::Withdraw { prefix: *prefix };
            add_to_module(issues, all, NodeModule::PrefixManager, node, withdraw)?;
        }
        Command::Aggregate { node, prefix, min } => {
            let aggregate = Item::Aggregate {
                prefix: *prefix,
                min: *min,
            };
            add_to_module(issues, all, NodeModule::PrefixManager, node, aggregate)?;
        }
        Command::Ask { node, prefix } => {
            let ask = Item::Ask { prefix: *prefix };
            add_to_module(issues, all, NodeModule::Desk, node, ask)?;
        }
        _other => {}
    }
    Ok(())
}

/// Adds what the driver sends for a command.
#[tactic(auto, unfolding(crate::specs::Phases::issues_of))]
fn add_issues(issues: &mut Vec<Output>, all: &[Role], command: &Command) -> Result<(), NoMemory>
    requires few { length all.now ≤ most_actors }
    requires small { NamesSmallLink command.now }
    ensures added { OnOk result (issues.new.items ≡ issues.old.items ++ issues_of all.now command.now) }
    ensures small { IsTrue (have_small_links issues.old.items) → OnOk result (IsTrue (have_small_links issues.new.items)) }
{
    match command {
        Command::Tick { to } => add_ticks(issues, *to, all)?,
        Command::Set { node, pair } => {
            let pair = pair.copied()?;
            add_to_module(issues, all, NodeModule::Store, node, Item::Set { pair })?;
        }
        Command::Sync { node, link } => {
            let sync = Item::Sync { link: *link };
            add_to_module(issues, all, NodeModule::Store, node, sync)?;
        }
        Command::Own {
            node,
            key,
            value,
            ttl,
        } => {
            let persist = persist_item(key, value, *ttl)?;
            add_to_module(issues, all, NodeModule::Store, node, persist)?;
        }
        Command::Disown { node, key } => {
            let key = key.copied()?;
            add_to_module(issues, all, NodeModule::Store, node, Item::Unset { key })?;
        }
        Command::Restart { node } => add_restarts(issues, node, all)?,
        Command::Up { link } => add_to_link(issues, all, *link, Item::Up)?,
        Command::Down { link } => add_to_link(issues, all, *link, Item::Down)?,
        Command::Script { link, from, acts } => {
            add_to_link(issues, all, *link, script_item(from, acts)?)?;
        }
        Command::Get { node, key } => {
            let key = key.copied()?;
            add_to_module(issues, all, NodeModule::Desk, node, Item::Get { key })?;
        }
        Command::Settle { .. } => {}
        other => add_full_issues(issues, all, other)?,
    }
    Ok(())
}

/// The moment after a command.
fn moment_after(moment: u64, command: &Command) -> u64
    ensures { result ≡ moment_after moment command.now }
{
    match command {
        Command::Tick { to } => *to,
        _other => moment,
    }
}

/// What a settle shows besides its line are routes too.
pub fn shows_routes(show: Show) -> bool
    ensures { result ≡ shows_routes show }
{
    match show {
        Show::Both | Show::Routes => true,
        Show::Stores | Show::Nothing => false,
    }
}

/// The phases of commands, where the driver has these items for the first of them already.
fn phases_from(
    alloc: Global,
    all: &[Role],
    first: Vec<Output>,
    commands: &[Command],
) -> Result<Vec<Phase>, NoMemory>
    requires few { length all.now ≤ most_actors }
    requires small { IsTrue (have_small_links first.items) }
    requires named { All NamesSmallLink commands.now }
    ensures phases { IfOk result (λ found. found.items ≡ phases_from all.now 0 first.items commands.now) }
    ensures small { IfOk result (λ found. All IssuesSmallLinks found.items) }
{
    let mut phases = Vec::new(alloc);
    let mut issues = first;
    let mut moment = 0;
    for command in commands {
        match command {
            Command::Settle { rounds, show } => {
                phases.push(Phase {
                    issues: Seq::from_vec(issues),
                    rounds: *rounds,
                    moment,
                    shows_routes: shows_routes(*show),
                })?;
                issues = Vec::new(alloc);
            }
            other => {
                add_issues(&mut issues, all, other)?;
                moment = moment_after(moment, other);
            }
        }
    }
    Ok(phases)
}

/// The phases of a scenario. A phase is the commands up to and with a settle; the links belong to the first.
pub fn phases(alloc: Global, scenario: &Scenario) -> Result<Vec<Phase>, NoMemory>
    ensures phases { IfOk result (λ found. found.items ≡ phases scenario.now) }
    ensures small { IfOk result (λ found. All IssuesSmallLinks found.items) }
{
    let all = roles(alloc, scenario)?;
    let first = ups(alloc, all.as_slice(), scenario.links())?;
    phases_from(alloc, all.as_slice(), first, scenario.commands())
}
