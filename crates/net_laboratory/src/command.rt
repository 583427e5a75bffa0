use crate::show::Show;
use or_base::{Act, Bytes, Key, Name, Pair, Prefix, PrefixEntry, Seq};

/// What is done in a laboratory, with the defaults filled in. A settle ends a phase. Moments and lifetimes are in
/// milliseconds.
#[derive(Drop)]
pub enum Command {
    /// Run rounds, at most so many (1 to 100,000), until no item waits.
    Settle {
        rounds: u64,
        show: Show,
    },
    /// Let it be this moment (at most 2^40), which is later than each before.
    Tick {
        to: u64,
    },
    /// Offer the pair to the node's store.
    Set {
        node: Name,
        pair: Pair,
    },
    /// Let the node's store own the key with this value.
    Own {
        node: Name,
        key: Key,
        value: Bytes,
        ttl: Option<u64>,
    },
    /// Let it own the key no longer.
    Disown {
        node: Name,
        key: Key,
    },
    /// Let the node's store start a full sync over the link.
    Sync {
        node: Name,
        link: u32,
    },
    /// Restart the node.
    Restart {
        node: Name,
    },
    /// Let the link carry messages.
    Up {
        link: u32,
    },
    /// Let it carry none.
    Down {
        link: u32,
    },
    /// Let the link do these acts (1 to 256) with the next messages of one of its ends.
    Script {
        link: u32,
        from: Name,
        acts: Seq<Act>,
    },
    /// Ask the node's desk what is held under the key.
    Get {
        node: Name,
        key: Key,
    },
    /// Let the node carry no transit traffic, or let it do so again.
    Drain {
        node: Name,
        on: bool,
    },
    /// The same of one of its links.
    LinkDrain {
        node: Name,
        link: u32,
        on: bool,
    },
    /// Set the metric (1 to 2^31 - 1) of one of its links.
    Metric {
        node: Name,
        link: u32,
        metric: u32,
    },
    /// Let the node advertise the entry.
    Advertise {
        node: Name,
        entry: PrefixEntry,
    },
    /// Let it advertise the prefix no longer.
    Withdraw {
        node: Name,
        prefix: Prefix,
    },
    /// Let it advertise the prefix while so many routes (1 to 1,000) lie in it.
    Aggregate {
        node: Name,
        prefix: Prefix,
        min: u32,
    },
    /// Ask the node's desk for the route to the prefix.
    Ask {
        node: Name,
        prefix: Prefix,
    },
}
