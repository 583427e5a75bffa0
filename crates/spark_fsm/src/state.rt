/// What Spark knows of the neighbour on a link.
#[derive(Clone, Copy, Debug, PartialEq, Eq)]
pub enum State {
    /// Nothing was heard of it, or it is lost.
    Idle,
    /// It was heard.
    Warm,
    /// It hears this node too, and the two shake hands.
    Negotiate,
    /// The two shook hands, and it is heard since.
    Established,
    /// It said that it restarts.
    Restart,
}
