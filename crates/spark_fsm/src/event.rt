/// What can happen to a neighbour.
#[derive(Clone, Copy, Debug, PartialEq, Eq)]
pub enum Event {
    /// A hello that says that it hears this node.
    HelloWithUs,
    /// A hello that doesn't say so.
    HelloWithoutUs,
    /// A hello that says that it restarts.
    HelloRestarting,
    /// A handshake from the interface from which it was heard.
    Handshake,
    /// A handshake from another interface, or before any hello.
    HandshakeBad,
    /// It says that it is there.
    Heartbeat,
    /// The two didn't shake hands in time.
    NegotiateTimer,
    /// It wasn't heard for too long.
    HoldTimer,
    /// It didn't come back in time.
    RestartTimer,
}
