use or_base::Name;

/// How far a session has come.
#[derive(Clone, Copy, Debug, PartialEq, Eq)]
pub enum SyncPhase {
    /// The dump was sent, and the reply is awaited.
    Dumped,
    /// The reply has arrived, and the acknowledgement is awaited.
    Pushed,
}

/// A running session, as its starter keeps it.
#[derive(Drop)]
pub struct Session {
    pub number: u64,
    /// The node at the other end.
    pub peer: Name,
    /// The length of the starter's journal when its digest was made.
    pub a0: u64,
    /// The length of the peer's journal when its reply was made; 0 before that.
    pub b0: u64,
    /// How many pairs were withheld so far, since their lifetime was too short.
    pub withheld: u64,
    pub phase: SyncPhase,
}

/// A message isn't of the link's running session, or not of its phase.
#[derive(Clone, Copy, Debug, PartialEq, Eq)]
pub struct Stale {
    /// Number and phase of the session that runs on the link, if one does.
    pub running: Option<(u64, SyncPhase)>,
}
