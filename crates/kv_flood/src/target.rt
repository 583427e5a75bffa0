ghost use Rattle.std.specs.Prelude.{◌≡◌};
ghost use Rattle.kv_flood.specs.Flooding.{is_target};

use or_base::{Name, is_among};

/// A flood that has passed these nodes goes from `me` to the peer: the peer is neither `me` nor among them. It takes
/// no memory.
pub fn flood_target(me: &Name, peer: &Name, passed: &[Name]) -> bool
    ensures { result ≡ is_target me.now peer.now passed.now }
{
    let is_me = peer.as_str() == me.as_str();
    !is_me && !is_among(peer, passed)
}
