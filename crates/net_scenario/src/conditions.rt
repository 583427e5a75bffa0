//! The conditions on a line that names a command: each function tells whether one of them holds.

ghost use Rattle.std.specs.Prelude.{◌≡◌, ◌++◌, codes, not, IfOk, string_bytes};
ghost use Rattle.std.specs.List.{count_by, list_any};
ghost use Rattle.std.specs.Str.{bytes_eq};
ghost use Rattle.serde_json.specs.View.{view};
ghost use Rattle.net_fields.specs.Fields.{field_entry};
ghost use Rattle.net_fields.specs.Members.{text_at, number_or};
ghost use Rattle.net_fields.specs.Objects.{meets, has_field_that};
ghost use Rattle.net_laboratory.specs.Scenario.{is_declared, is_end, is_end_of, is_interface, has_interface};
ghost use Rattle.net_laboratory.specs.Amounts.{has_other_owner, is_of_node, is_record_key, has_offer_room};
ghost use Rattle.net_scenario.specs.Conditions.{interface_by, interface_a, interface_b, is_interface_repeated, is_full_at, is_link_too_many, new_keys, are_record_keys_too_many, is_node_too_many, is_early, is_bad_field, is_undeclared, is_no_end, is_unknown_name, is_repeated, has_two_owners, is_key_too_many, is_prefix_too_many, passes_limit, is_line_too_many, is_too_many, is_misplaced};
ghost use Rattle.net_scenario.specs.Tallied.{seen_in, IsTallied};

use crate::draft::Draft;
use crate::names::Names;
use crate::tally::{is_offered, record_key};
use net_fields::{
    Field, Form, Word, fields_of, has_other_member, has_unfit_field, is_contradictory, is_for_full,
    number_or, prefix_at, text_at, text_or,
};
use net_laboratory::{
    KeyOwner, LinkDecl, MOST_KEYS, MOST_LINES, MOST_LINKS, MOST_LINKS_OF_NODE, MOST_NODES,
    MOST_PREFIXES_OF_NODE, MOST_SETTLES, MOST_TURNS, NodeDecl, NodePrefix,
};
use or_base::{Kind, Name, NoMemory, Prefix};
use serde_json::Value;
use std::alloc::Global;

// ---- a field isn't of the command, or has a value that it doesn't take

/// A tick isn't above the last.
fn is_early(draft: &Draft, word: Word, object: &Value) -> bool
    requires { IsTallied draft.now }
    ensures { result ≡ is_early (seen_in draft.now) word (view object.now) }
{
    match word {
        Word::Tick => match draft.tally.moment {
            Some(last) => number_or(object, "to", 0) <= last,
            None => false,
        },
        _other => false,
    }
}

/// A field isn't of the command, has a value that it doesn't take, or contradicts another field or an earlier line.
#[tactic(auto, unfolding(crate::specs::Conditions::is_bad_field))]
pub fn is_bad_field(draft: &Draft, word: Word, object: &Value) -> bool
    requires { IsTallied draft.now }
    ensures { result ≡ is_bad_field (seen_in draft.now) word (view object.now) }
{
    has_other_member(word, object)
        || has_unfit_field(word, object)
        || is_contradictory(word, object)
        || is_early(draft, word, object)
}

// ---- a node or a link that isn't declared

/// The link with this number has an end that is this node.
fn is_end_of(links: &[LinkDecl], name: &str, number: u64) -> bool
    ensures { result ≡ is_end_of links.now name.now number }
{
    match links.get(number as usize) {
        Some(link) => is_end(link, name),
        None => false,
    }
}

/// The node is an end of the link.
fn is_end(link: &LinkDecl, name: &str) -> bool
    ensures { result ≡ is_end name.now link.now }
{
    link.a.as_str() == name || link.b.as_str() == name
}

/// The value names a node or a link that isn't declared.
#[tactic(auto, unfolding(crate::specs::Conditions::is_undeclared))]
fn is_undeclared(draft: &Draft, form: Form, value: &Value) -> bool
    requires { IsTallied draft.now }
    ensures { result ≡ is_undeclared (seen_in draft.now) form (view value.now) }
{
    match form {
        Form::Node => match value.as_str() {
            Some(name) => !draft.is_declared(name),
            None => false,
        },
        Form::Link => match value.as_u64() {
            Some(number) => number >= draft.links.len() as u64,
            None => false,
        },
        _other => false,
    }
}

/// The field is there and names a node or a link that isn't declared.
fn has_undeclared(draft: &Draft, field: &Field, object: &Value) -> bool
    requires { IsTallied draft.now }
    ensures { result ≡ meets (is_undeclared (seen_in draft.now)) (view object.now) (field_entry field.now) }
{
    match object.get(field.name) {
        Some(value) => is_undeclared(draft, field.form, value),
        None => false,
    }
}

/// Some of the fields names a node or a link that isn't declared.
fn is_some_undeclared(draft: &Draft, fields: &[Field], object: &Value) -> bool
    requires { IsTallied draft.now }
    ensures { result ≡ list_any (λ f. meets (is_undeclared (seen_in draft.now)) (view object.now) (field_entry f)) fields.now }
{
    let mut left = fields;
    while let Some((field, later)) = left.split_first() {
        if has_undeclared(draft, field, object) {
            return true;
        }
        left = later;
    }
    false
}

/// Some field of the command names a node or a link that isn't declared.
#[tactic(auto, using(crate::proofs::Lists::through_map))]
fn has_undeclared_field(draft: &Draft, word: Word, object: &Value) -> bool
    requires { IsTallied draft.now }
    ensures { result ≡ has_field_that (is_undeclared (seen_in draft.now)) word (view object.now) }
{
    is_some_undeclared(draft, fields_of(word), object)
}

/// The link has no end that is the node which this field names.
fn is_no_end_by(draft: &Draft, object: &Value, field: &str) -> bool
    ensures { result ≡ not (is_end_of draft.now.links.items (text_at field.now (view object.now)) (number_or (codes "link") 0 (view object.now))) }
{
    !is_end_of(
        &draft.links,
        text_at(object, field),
        number_or(object, "link", 0),
    )
}

/// The link has no end at the named node.
fn is_no_end(draft: &Draft, word: Word, object: &Value) -> bool
    ensures { result ≡ is_no_end (seen_in draft.now) word (view object.now) }
{
    match word {
        Word::Sync | Word::LinkDrain | Word::Metric => is_no_end_by(draft, object, "node"),
        Word::Script => is_no_end_by(draft, object, "from"),
        _other => false,
    }
}

/// A node or a link that isn't declared, or a link that the named node isn't an end of.
#[tactic(auto, unfolding(crate::specs::Conditions::is_unknown_name))]
pub fn is_unknown_name(draft: &Draft, word: Word, object: &Value) -> bool
    requires { IsTallied draft.now }
    ensures { result ≡ is_unknown_name (seen_in draft.now) word (view object.now) }
{
    has_undeclared_field(draft, word, object) || is_no_end(draft, word, object)
}

// ---- a name or an interface again

/// `if-` and a node's name.
fn default_interface(alloc: Global, other: &str) -> Result<String, NoMemory>
    ensures { IfOk result (λ text. string_bytes text ≡ codes "if-" ++ other.now) }
{
    let mut text = String::from_str(alloc, "if-")?;
    text.push_str(other)?;
    Ok(text)
}

/// The interface that a field gives, by default `if-` and the name of the node that another field gives.
fn interface_at(alloc: Global, object: &Value, field: &str, other: &str) -> Result<Name, NoMemory>
    ensures { IfOk result (λ name. name ≡ interface_by field.now other.now (view object.now)) }
{
    let default = default_interface(alloc, text_at(object, other))?;
    let text = text_or(object, field, default.as_str());
    Ok(Name::from_string(String::from_str(alloc, text)?))
}

/// The interface of a link at its end a.
pub fn interface_a(alloc: Global, object: &Value) -> Result<Name, NoMemory>
    ensures { IfOk result (λ name. name ≡ interface_a (view object.now)) }
{
    interface_at(alloc, object, "aif", "b")
}

/// The interface of a link at its end b.
pub fn interface_b(alloc: Global, object: &Value) -> Result<Name, NoMemory>
    ensures { IfOk result (λ name. name ≡ interface_b (view object.now)) }
{
    interface_at(alloc, object, "bif", "a")
}

/// The link has this interface at this node.
fn has_interface(link: &LinkDecl, name: &str, interface: &Name) -> bool
    ensures { result ≡ has_interface name.now interface.now link.now }
{
    (link.a.as_str() == name && link.aif.as_str() == interface.as_str())
        || (link.b.as_str() == name && link.bif.as_str() == interface.as_str())
}

/// A link has this interface at this node.
fn is_interface(links: &[LinkDecl], name: &str, interface: &Name) -> bool
    ensures { result ≡ is_interface links.now name.now interface.now }
{
    links
        .iter()
        .any(|link| has_interface(link, name, interface))
}

/// An interface of a link stands again at its node.
fn is_interface_repeated(alloc: Global, draft: &Draft, object: &Value) -> Result<bool, NoMemory>
    ensures { IfOk result (λ is. is ≡ is_interface_repeated (seen_in draft.now) (view object.now)) }
{
    let at_a = interface_a(alloc, object)?;
    let at_b = interface_b(alloc, object)?;
    Ok(
        is_interface(&draft.links, text_at(object, "a"), &at_a)
            || is_interface(&draft.links, text_at(object, "b"), &at_b),
    )
}

/// A second laboratory, a node's name again, an interface again at one node.
#[tactic(auto, unfolding(crate::specs::Conditions::is_repeated))]
pub fn is_repeated(
    alloc: Global,
    draft: &Draft,
    word: Word,
    object: &Value,
) -> Result<bool, NoMemory>
    requires { IsTallied draft.now }
    ensures { IfOk result (λ is. is ≡ is_repeated (seen_in draft.now) word (view object.now)) }
{
    match word {
        Word::Lab => Ok(draft.kind.is_some()),
        Word::Node => Ok(draft.is_declared(text_at(object, "name"))),
        Word::Link => Ok(is_interface_repeated(alloc, draft, object)?),
        _other => Ok(false),
    }
}

// ---- two owners

/// Another node owned the key before.
fn has_other_owner(owners: &[KeyOwner], key: &str, node: &str) -> bool
    ensures { result ≡ has_other_owner owners.now key.now node.now }
{
    owners.iter().any(|owned| owned.key.as_str() == key && owned.node.as_str() != node)
}

/// A node with this name is among them.
fn is_declared(nodes: &[NodeDecl], name: &[u8]) -> bool
    ensures { result ≡ is_declared nodes.now name.now }
{
    nodes
        .iter()
        .any(|node| node.name.as_str().as_bytes() == name)
}

/// The key is this text followed by the name of a node.
fn is_of_node(nodes: &[NodeDecl], start: &str, key: &str) -> bool
    ensures { result ≡ is_of_node nodes.now start.now key.now }
{
    match key.as_bytes().strip_prefix(start.as_bytes()) {
        Some(name) => is_declared(nodes, name),
        None => false,
    }
}

/// The key is that of a record which a node of a full laboratory publishes.
fn is_record_key(kind: Kind, nodes: &[NodeDecl], key: &str) -> bool
    ensures { result ≡ is_record_key kind nodes.now key.now }
{
    match kind {
        Kind::Stores => false,
        Kind::Full => is_of_node(nodes, "adj:", key) || is_of_node(nodes, "prefix:", key),
    }
}

/// A key that another node owned before, or that a node of a full laboratory publishes.
#[tactic(auto, unfolding(crate::specs::Conditions::has_two_owners))]
pub fn has_two_owners(draft: &Draft, word: Word, object: &Value) -> bool
    requires { IsTallied draft.now }
    ensures { result ≡ has_two_owners (seen_in draft.now) word (view object.now) }
{
    match word {
        Word::Own => {
            let key = text_at(object, "key");
            has_other_owner(&draft.tally.owners, key, text_at(object, "node"))
                || is_record_key(draft.kind(), &draft.nodes, key)
        }
        _other => false,
    }
}

// ---- too many

/// The key is one more than there may be.
fn is_key_too_many(draft: &Draft, object: &Value) -> bool
    requires { IsTallied draft.now }
    ensures { result ≡ is_key_too_many (seen_in draft.now) (view object.now) }
{
    let keys = &draft.tally.keys;
    !(keys.contains(text_at(object, "key")) || keys.len() < MOST_KEYS)
}

/// The prefixes of a node.
fn offers_of(offers: &[NodePrefix], node: &str) -> u64
    ensures { result ≡ count_by (λ o. bytes_eq o.node node.now) offers.now }
{
    let mut count = 0;
    for offered in offers {
        if offered.node.as_str() == node {
            count += 1;
        }
    }
    count
}

/// The node has the prefix, or may have it.
#[tactic(auto, unfolding(net_laboratory::specs::Amounts::has_offer_room))]
fn has_offer_room(offers: &[NodePrefix], node: &str, prefix: &Prefix) -> bool
    ensures { result ≡ has_offer_room offers.now node.now prefix.now }
{
    is_offered(offers, node, prefix) || offers_of(offers, node) < MOST_PREFIXES_OF_NODE
}

/// The prefix is one more than the node may have.
fn is_prefix_too_many(draft: &Draft, object: &Value) -> bool
    requires { IsTallied draft.now }
    ensures { result ≡ is_prefix_too_many (seen_in draft.now) (view object.now) }
{
    match prefix_at(object, "prefix") {
        Some(prefix) => !has_offer_room(&draft.tally.offers, text_at(object, "node"), &prefix),
        None => false,
    }
}

/// How many links have an end at the node.
fn links_at(links: &[LinkDecl], name: &str) -> u64
    ensures { result ≡ count_by (is_end name.now) links.now }
{
    let mut count = 0;
    for link in links {
        if is_end(link, name) {
            count += 1;
        }
    }
    count
}

/// The node has all the links that it may have.
#[tactic(auto, unfolding(crate::specs::Conditions::is_full_at))]
fn is_full_at(links: &[LinkDecl], name: &str) -> bool
    ensures { result ≡ is_full_at links.now name.now }
{
    links_at(links, name) >= MOST_LINKS_OF_NODE
}

/// The link is one more than there may be, or than one of its ends may have.
fn is_link_too_many(draft: &Draft, object: &Value) -> bool
    ensures { result ≡ is_link_too_many (seen_in draft.now) (view object.now) }
{
    draft.links.len() >= MOST_LINKS
        || is_full_at(&draft.links, text_at(object, "a"))
        || is_full_at(&draft.links, text_at(object, "b"))
}

/// 1 for a key that isn't counted yet.
fn new_keys(keys: &Names, key: &str) -> u128
    ensures { result ≡ new_keys keys.now key.now }
{
    if keys.contains(key) { 0 } else { 1 }
}

/// With the keys of the two records that the node publishes there are more keys than there may be.
fn are_record_keys_too_many(alloc: Global, keys: &Names, name: &str) -> Result<bool, NoMemory>
    ensures { IfOk result (λ are. are ≡ are_record_keys_too_many keys.now name.now) }
{
    let link_record = record_key(alloc, "adj:", name)?;
    let prefix_record = record_key(alloc, "prefix:", name)?;
    let more = new_keys(keys, link_record.as_str()) + new_keys(keys, prefix_record.as_str());
    Ok(keys.len() as u128 + more > MOST_KEYS as u128)
}

/// The node is one more than there may be, or the keys of its records are too many.
fn is_node_too_many(alloc: Global, draft: &Draft, object: &Value) -> Result<bool, NoMemory>
    requires { IsTallied draft.now }
    ensures { IfOk result (λ is. is ≡ is_node_too_many (seen_in draft.now) (view object.now)) }
{
    let are_too_many = are_record_keys_too_many(alloc, &draft.tally.keys, text_at(object, "name"))?;
    Ok(draft.nodes.len() >= MOST_NODES || (draft.kind() == Kind::Full && are_too_many))
}

/// One more of what the command adds is more than there may be.
#[tactic(auto, unfolding(crate::specs::Conditions::passes_limit))]
fn passes_limit(alloc: Global, draft: &Draft, word: Word, object: &Value) -> Result<bool, NoMemory>
    requires { IsTallied draft.now }
    ensures { IfOk result (λ is. is ≡ passes_limit (seen_in draft.now) word (view object.now)) }
{
    Ok(match word {
        Word::Node => is_node_too_many(alloc, draft, object)?,
        Word::Link => is_link_too_many(draft, object),
        Word::Settle => draft.tally.settles >= MOST_SETTLES,
        Word::Set | Word::Own => is_key_too_many(draft, object),
        Word::Advertise | Word::Aggregate => is_prefix_too_many(draft, object),
        Word::Turn => draft.turns.len() >= MOST_TURNS,
        _other => false,
    })
}

/// One more line that isn't a turn is more than there may be.
fn is_line_too_many(draft: &Draft, word: Word) -> bool
    requires { IsTallied draft.now }
    ensures { result ≡ is_line_too_many (seen_in draft.now) word }
{
    let declared = draft.nodes.len() as u128 + draft.links.len() as u128;
    word != Word::Turn && 1 + declared + draft.commands.len() as u128 >= MOST_LINES
}

/// A counted limit is passed.
#[tactic(auto, unfolding(crate::specs::Conditions::is_too_many))]
pub fn is_too_many(
    alloc: Global,
    draft: &Draft,
    word: Word,
    object: &Value,
) -> Result<bool, NoMemory>
    requires { IsTallied draft.now }
    ensures { IfOk result (λ is. is ≡ is_too_many (seen_in draft.now) word (view object.now)) }
{
    let passes = passes_limit(alloc, draft, word, object)?;
    Ok(is_line_too_many(draft, word) || passes)
}

// ---- not in this kind or not at this place

/// A declaration behind a command, a line behind a turn, a turn where none may stand, or a command that the kind of
/// laboratory doesn't have.
#[tactic(auto, unfolding(crate::specs::Conditions::is_misplaced))]
pub fn is_misplaced(draft: &Draft, turns: bool, word: Word) -> bool
    ensures { result ≡ is_misplaced (seen_in draft.now) turns word }
{
    match word {
        Word::Lab => false,
        Word::Node | Word::Link => !draft.commands.is_empty() || !draft.turns.is_empty(),
        Word::Turn => !turns,
        _other => { (is_for_full(word) && draft.kind() != Kind::Full) || !draft.turns.is_empty() }
    }
}
