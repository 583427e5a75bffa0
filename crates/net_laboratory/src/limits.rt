//! The limits of a scenario, and its defaults.

use or_base::{MOST_ADJACENCIES, MOST_PREFIX_ENTRIES};

/// How many bytes a scenario has at most.
pub const MOST_SCENARIO_BYTES: u64 = 33_554_432;

/// How many bytes a line has at most, without its LF.
pub const MOST_LINE_BYTES: usize = 65_536;

/// How many lines that aren't turns a scenario has at most.
pub const MOST_LINES: u128 = 10_000;

/// How many turns a run takes at most, and how many turn lines a scenario has at most.
pub const MOST_TURNS: usize = 500_000;

/// How many nodes there are at most.
pub const MOST_NODES: usize = 64;

/// How many calls on the forwarding agent of a node may fail.
pub const MOST_FAILING_CALLS: u64 = 64;

/// The greatest number of a call that fails.
pub const LAST_FAILING_CALL: u64 = 500_000;

/// How many links there are at most.
pub const MOST_LINKS: usize = 256;

/// How many links a node has at most.
pub const MOST_LINKS_OF_NODE: u64 = MOST_ADJACENCIES as u64;

/// How many distinct keys there are at most.
pub const MOST_KEYS: usize = 512;

/// How many distinct prefixes a node advertises or aggregates at most.
pub const MOST_PREFIXES_OF_NODE: u64 = MOST_PREFIX_ENTRIES as u64;

/// How many settles there are at most.
pub const MOST_SETTLES: u64 = 1_000;

/// How many rounds a settle runs at most; the least is 1.
pub const MOST_ROUNDS: u64 = 100_000;

/// The last moment, in milliseconds.
pub const MOST_MOMENT: u64 = 1 << 40;

/// How many acts a script has at most; the least is 1.
pub const MOST_ACTS: usize = 256;

/// How many routes an aggregate waits for at most; the least is 1.
pub const MOST_AGGREGATED_ROUTES: u64 = 1_000;

/// The greatest number of a lane.
pub const MOST_LANE: u64 = (1 << 32) - 1;

/// The greatest length that a turn line says.
pub const MOST_LENGTH: u64 = u64::MAX;

/// How many rounds a settle runs that names none.
pub const DEFAULT_ROUNDS: u64 = 1_000;

/// The metric of a link's end that names none.
pub const DEFAULT_METRIC: u32 = 1;

/// The path of a prefix that names none.
pub const DEFAULT_PATH: u32 = 1_000;

/// Its source.
pub const DEFAULT_SOURCE: u32 = 100;

/// Its distance.
pub const DEFAULT_DISTANCE: u32 = 0;
