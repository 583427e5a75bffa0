use or_base::{Asked, JournalEntry, Name, Route, Seq, SyncDone, Told, TurnDone};

/// A node at a settle.
#[derive(Drop)]
pub struct NodeMark {
    /// The length of its store's journal.
    pub entries: u64,
    /// How many stale messages its store has met.
    pub stale: u64,
    /// The full syncs that its store started and that were finished in this phase, in order.
    pub syncs: Seq<SyncDone>,
    /// Its routes, in prefix order, where the settle shows routes.
    pub routes: Seq<Route>,
    /// Its forwarding agent lacks some of its routes.
    pub fib_dirty: bool,
    /// How many routes the agent has.
    pub fib_routes: u64,
}

/// A question that was answered.
#[derive(Drop)]
pub struct AnswerDone {
    /// The node whose desk was asked.
    pub node: Name,
    pub asked: Asked,
    pub told: Told,
}

/// A settle that was done.
#[derive(Drop)]
pub struct SettleDone {
    /// How many turns the run had done.
    pub turns: u64,
    /// The last moment that was set, in milliseconds, or 0.
    pub moment: u64,
    /// One mark a node, in the order of their declarations.
    pub nodes: Seq<NodeMark>,
    /// The answers of the phase, in the order of the commands.
    pub answers: Seq<AnswerDone>,
}

/// What was done in a run.
#[derive(Drop)]
pub struct Record {
    /// The turns, in order.
    pub turns: Seq<TurnDone>,
    /// One journal a node, in the order of their declarations.
    pub journals: Seq<Seq<JournalEntry>>,
    /// The settles, in order.
    pub settles: Seq<SettleDone>,
    /// How many turns were done as each round ended.
    pub marks: Seq<u64>,
}
