//! Turn lines that were read before, so that a text which comes again isn't read again.

ghost use Rattle.std.specs.Prelude.{◌≡◌, ◌≤◌, IfSome};
ghost use Rattle.net_scenario.specs.TurnLines.{SaysTurn};

use net_fields::text_of;
use net_laboratory::Turn;
use or_base::NoMemory;
use std::alloc::Global;
use std::collections::HashMap;
use std::marker::Model;

/// The most texts that are kept: several times the lanes of the greatest laboratory, and little memory.
const MOST_KEPT_LINES: usize = 4096;

/// Texts of lines, each with the turn that it says wherever a turn line may stand.
#[derive(Drop)]
pub struct TurnLines<'a> {
    turns: HashMap<&'a str, Turn>,
}

impl<'a> Model for TurnLines<'a> {
    ghost use Rattle.std.specs.Prelude.{ℕ};
    ghost use Rattle.std.specs.HashMap.{hash_map_len};
    ghost use Rattle.net_scenario.specs.TurnLines.{AreTurnLines};

    ghost Value = { ℕ };

    ghost view = { λ lines. hash_map_len lines.turns };

    ghost invariant = { λ lines. AreTurnLines lines.turns };
}

impl<'a> TurnLines<'a> {
    /// No lines.
    pub fn new(alloc: Global) -> TurnLines<'a>
        ensures { result ≡ 0 }
    {
        TurnLines {
            turns: HashMap::new(alloc),
        }
    }

    /// The turn that a line of this text says, where it is kept.
    pub fn turn_of(&self, text: &[u8]) -> Option<Turn>
        ensures { IfSome result (SaysTurn text.now) }
    {
        let text = text_of(text)?;
        self.turns.get(text).copied()
    }

    /// Keeps a text with the turn that it says, while there is room.
    pub fn keep(&mut self, text: &'a [u8], turn: Turn) -> Result<(), NoMemory>
        requires { SaysTurn text.now turn }
        ensures few { self.old ≤ MOST_KEPT_LINES → self.new ≤ MOST_KEPT_LINES }
    {
        if self.turns.len() < MOST_KEPT_LINES {
            if let Some(text) = text_of(text) {
                self.turns.insert(text, turn)?;
            }
        }
        Ok(())
    }
}
