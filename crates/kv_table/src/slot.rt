/// Where the value that is held under a key was merged, and its hash once something needed it.
#[derive(Clone, Copy, Debug, PartialEq, Eq)]
pub struct Slot {
    /// The place of the entry in the journal.
    pub place: usize,
    /// `hash_of` the value, if it is kept.
    pub hash: Option<u64>,
}
