ghost use Rattle.std.specs.Prelude.{◌≡◌, IfOk};

use crate::memory::{Copied, NoMemory};

/// What a link does with a message.
#[derive(Clone, Copy, Debug, PartialEq, Eq)]
pub enum Act {
    /// Forwards it.
    Pass,
    /// Loses it.
    Drop,
    /// Forwards it twice.
    Twice,
    /// Holds it back until so many further messages (1 to 9) of its direction have come.
    Late(u8),
}

impl Act {
    /// An equal act.
    pub fn copied(&self) -> Result<Self, NoMemory>
        ensures { IfOk result (λ copy. copy ≡ self.now) }
    {
        Ok(*self)
    }
}

impl Copied for Act {
    fn copied(&self) -> Result<Self, NoMemory> {
        Act::copied(self)
    }
}
