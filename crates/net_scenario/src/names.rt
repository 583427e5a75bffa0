ghost use Rattle.std.specs.Prelude.{◌≡◌, [], length, OnOk};
ghost use Rattle.or_base.specs.Names.{is_among};
ghost use Rattle.net_laboratory.specs.Amounts.{with_name};

use indexmap::IndexSet;
use or_base::NoMemory;
use std::alloc::Global;
use std::marker::Model;

/// Distinct texts, numbered from 0 in the order in which they came.
#[derive(Drop)]
pub struct Names {
    texts: IndexSet<String>,
}

impl Model for Names {
    ghost use Rattle.std.specs.Prelude.{List, ℕ, map, string_bytes};

    ghost Value = { List (List ℕ) };

    ghost view = { λ names. map string_bytes names.texts.keys };
}

impl Names {
    pub fn new(alloc: Global) -> Names
        ensures { result ≡ [] }
    {
        Names {
            texts: IndexSet::new(alloc),
        }
    }

    pub fn len(&self) -> usize
        ensures { result ≡ length self.now }
    {
        self.texts.len()
    }

    /// One of them is this text.
    pub fn contains(&self, text: &str) -> bool
        ensures { result ≡ is_among text.now self.now }
    {
        self.texts.contains(text)
    }

    /// Adds the text, unless it is among them.
    pub fn add(&mut self, alloc: Global, text: &str) -> Result<(), NoMemory>
        ensures { OnOk result (self.new ≡ with_name self.old text.now) }
    {
        if !self.contains(text) {
            self.texts.insert(String::from_str(alloc, text)?)?;
        }
        Ok(())
    }
}
