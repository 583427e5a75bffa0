//! Laboratories as data: what one consists of and what is done in it.
//!
//! A scenario declares nodes and links, and lists commands in order; the commands up to and with a settle are a
//! phase. The type keeps that a scenario is sound (`specs/Sound.antt`): each node, link and command may stand behind
//! those before it, and the last command is a settle. So no run of a scenario meets a name that isn't there.
//!
//! The files: `declared`, `command`, `show` and `schedule` (plain data), `limits`, `amounts` (what they count),
//! `scenario` (the type with its invariant).
#![tactic(auto)]

mod amounts;
mod command;
mod declared;
mod limits;
mod scenario;
mod schedule;
mod show;

pub use amounts::{KeyOwner, NodePrefix};
pub use command::Command;
pub use declared::{LinkDecl, NodeDecl};
pub use limits::{
    DEFAULT_DISTANCE, DEFAULT_METRIC, DEFAULT_PATH, DEFAULT_ROUNDS, DEFAULT_SOURCE,
    LAST_FAILING_CALL, MOST_ACTS, MOST_AGGREGATED_ROUTES, MOST_FAILING_CALLS, MOST_KEYS, MOST_LANE,
    MOST_LENGTH, MOST_LINE_BYTES, MOST_LINES, MOST_LINKS, MOST_LINKS_OF_NODE, MOST_MOMENT,
    MOST_NODES, MOST_PREFIXES_OF_NODE, MOST_ROUNDS, MOST_SCENARIO_BYTES, MOST_SETTLES, MOST_TURNS,
};
pub use or_base::Kind;
pub use scenario::Scenario;
pub use schedule::{Schedule, Turn};
pub use show::Show;
