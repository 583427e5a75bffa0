use or_base::Seq;

/// A turn of a schedule: the lane whose reader takes the front item, and the length that a desk finds there (0 for
/// every other reader).
#[derive(Clone, Copy, Debug, PartialEq, Eq)]
pub struct Turn {
    pub lane: u32,
    pub at: u64,
}

/// Turns, in order.
#[derive(Drop)]
pub struct Schedule {
    pub turns: Seq<Turn>,
}
