ghost use Rattle.std.specs.Prelude.{◌≡◌, ◌<◌, ◌^◌, [], ◌++◌, replicate, OnOk, OnErr};

use or_base::NoMemory;
use std::alloc::Global;
use std::marker::Model;

/// The stamps of the turns that made the entries of a journal. Contracts see a list, that of the oldest entry first.
#[derive(Drop)]
pub struct Stamps {
    stamps: Vec<u64>,
}

impl Model for Stamps {
    ghost use Rattle.std.specs.Prelude.{List, ℕ};

    ghost Value = { List ℕ };

    ghost view = { λ s. s.stamps.items };
}

impl Stamps {
    ghost use Rattle.net_record.specs.Actors.{made_at};

    /// Those of no entries. It takes no memory.
    pub(crate) fn new(alloc: Global) -> Stamps
        ensures { result ≡ [] }
    {
        Stamps {
            stamps: Vec::new(alloc),
        }
    }

    /// So many entries more, of one turn. Out of memory, the stamps stay as they were.
    pub(crate) fn add(&mut self, count: usize, stamp: u64) -> Result<(), NoMemory>
        requires { count < 2 ^ 63 }
        ensures ok { OnOk result (self.new ≡ self.old ++ replicate count stamp) }
        ensures err { OnErr result (self.new ≡ self.old) }
    {
        self.stamps.resize(self.stamps.len() + count, stamp)?;
        Ok(())
    }

    /// The stamp of the turn that made the journal so long; 0 where it is empty. It takes no memory.
    pub(crate) fn made_at(&self, at: u64) -> u64
        ensures { result ≡ made_at self.now at }
    {
        if at == 0 {
            return 0;
        }
        match self.stamps.as_slice().get((at - 1) as usize) {
            Some(stamp) => *stamp,
            None => 0,
        }
    }
}
