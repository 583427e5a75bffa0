ghost use Rattle.std.specs.Prelude.{◌≡◌};
ghost use Rattle.or_actor.specs.Fits.{has_small_link};

use or_base::Item;

/// Links are numbered below this.
pub const LINK_NUMBER_END: u32 = 1 << 31;

/// A link that the item names has a number below `LINK_NUMBER_END`. It takes no memory.
pub fn has_small_link(item: &Item) -> bool
    ensures { result ≡ has_small_link item.now }
{
    match item {
        Item::Sync { link }
        | Item::LinkDrain { link, .. }
        | Item::Metric { link, .. }
        | Item::LinkUp { link }
        | Item::LinkDown { link }
        | Item::NeighbourUp { link, .. }
        | Item::NeighbourDown { link }
        | Item::PeerUp { link, .. }
        | Item::PeerDown { link }
        | Item::Net { link, .. } => *link < LINK_NUMBER_END,
        _ => true,
    }
}
