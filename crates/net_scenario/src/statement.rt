use net_laboratory::{Command, LinkDecl, NodeDecl, Turn};
use or_base::Kind;

/// What a line says.
#[derive(Drop)]
pub enum Statement {
    /// The kind of the laboratory, and the lifetime of the records that its nodes publish.
    Lab { kind: Kind, ttl: Option<u64> },
    Node { node: NodeDecl },
    Link { link: LinkDecl },
    Command { command: Command },
    Turn { turn: Turn },
}
