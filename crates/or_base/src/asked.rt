ghost use Rattle.std.specs.Prelude.{◌≡◌, IfOk};

use crate::memory::{Copied, NoMemory};
use crate::prefix::Prefix;
use crate::route::Route;
use crate::text::Key;
use crate::value::KvValue;

/// What a desk is asked.
#[derive(Clone, Drop)]
pub enum Asked {
    /// What is held under the key.
    Key(Key),
    /// The route to the prefix.
    Prefix(Prefix),
}

impl Asked {
    /// An equal question.
    pub fn copied(&self) -> Result<Self, NoMemory>
        ensures { IfOk result (λ copy. copy ≡ self.now) }
    {
        Ok(self.clone()?)
    }
}

impl Copied for Asked {
    fn copied(&self) -> Result<Self, NoMemory> {
        Asked::copied(self)
    }
}

/// What a desk answers.
#[derive(Clone, Drop)]
pub enum Told {
    /// The value held under the key.
    Value(KvValue),
    /// The route to the prefix.
    Route(Route),
    /// Nothing is held, or there is no route.
    Nothing,
    /// The desk found so many entries of the journal, which is fewer than it had seen.
    Behind(u64),
}

impl Told {
    /// An equal answer.
    pub fn copied(&self) -> Result<Self, NoMemory>
        ensures { IfOk result (λ copy. copy ≡ self.now) }
    {
        Ok(self.clone()?)
    }
}

impl Copied for Told {
    fn copied(&self) -> Result<Self, NoMemory> {
        Told::copied(self)
    }
}
