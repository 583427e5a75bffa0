use or_base::{Copied, Item, NoMemory};

/// An item that a turn sends.
#[derive(Clone, Drop)]
pub enum Output {
    /// To the lane of the module's port `lane`; to no lane where there is no such port.
    To { lane: u32, item: Item },
}

impl Copied for Output {
    fn copied(&self) -> Result<Self, NoMemory> {
        Ok(self.clone()?)
    }
}
