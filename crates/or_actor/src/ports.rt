//! Ports 1 to 7 are the modules of a module's own node; for a link, those of the node at its end a.

/// Spark.
pub const SPARK_PORT: u32 = 1;

/// LinkMonitor.
pub const LINK_MONITOR_PORT: u32 = 2;

/// PrefixManager.
pub const PREFIX_MANAGER_PORT: u32 = 3;

/// The store.
pub const STORE_PORT: u32 = 4;

/// Decision.
pub const DECISION_PORT: u32 = 5;

/// Fib.
pub const FIB_PORT: u32 = 6;

/// The desk.
pub const DESK_PORT: u32 = 7;

/// The port of link 0; that of link `l` is `l` more.
pub const FIRST_LINK_PORT: u32 = 8;

/// A link's ports for the modules of its end b are so much more than those for end a.
pub const END_B_PORTS: u32 = 8;
