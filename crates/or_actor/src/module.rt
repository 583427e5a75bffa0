ghost use Rattle.std.specs.Prelude.{◌≡◌, ◌++◌, ℕ, List, Bool, IsTrue, IfOk};
ghost use Rattle.or_base.specs.declared.item.Item.{Item};
ghost use Rattle.or_actor.specs.declared.output.Output.{Output};
ghost use Rattle.or_actor.specs.Fits.{have_small_links};
ghost use Rattle.or_actor.specs.Steps.{turned};

use crate::outbox::Outbox;
use or_base::{Item, NoMemory};

/// An event loop that takes one item at a time and sends items.
pub trait Module {
    /// What its turns depend on: plain data.
    ghost State: { Type 0 };

    /// The state that it is in.
    ghost state: { Self → State };

    /// The numbers that the item brings are small enough for a turn.
    ghost may_take: { State → Item → Bool };

    /// A turn with the item may find a journal of this length. A module that is no desk finds nothing: the length is 0.
    ghost may_find: { State → Item → ℕ → Bool };

    /// One turn: from the state, the number of the lane that the item came from, the item and the length that a desk
    /// found, to the next state and what is sent, in order.
    ghost step: { State → ℕ → Item → ℕ → State × List Output };

    /// Whether a turn with the item may be done. It takes no memory.
    fn fits(&self, item: &Item) -> bool
        ensures { result ≡ may_take (state self.now) item.now };

    /// One turn. It answers the length that a desk found, and 0 for every other module. The greatest u64 is no length:
    /// then no turn was done. Out of memory, the module is spent.
    fn turn(&mut self, lane: u32, item: Item, out: &mut Outbox) -> Result<u64, NoMemory>
        requires { IsTrue (may_take (state self.old) item) }
        ensures found { IfOk result (λ at. IsTrue (may_find (state self.old) item at)) }
        ensures state { IfOk result (λ at. state self.new ≡ (turned at (state self.old) (step (state self.old) lane item at)).0) }
        ensures sent { IfOk result (λ at. out.new ≡ out.old ++ (turned at (state self.old) (step (state self.old) lane item at)).1) }
        ensures small { IfOk result (λ at. IsTrue (have_small_links (turned at (state self.old) (step (state self.old) lane item at)).1)) };
}
