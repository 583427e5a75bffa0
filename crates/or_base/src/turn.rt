ghost use Rattle.std.specs.Prelude.{◌≡◌};

use crate::item::Item;
use std::marker::Model;
use std::snapshot::Snapshot;

/// A turn that was done: the lane whose reader took the item, the length that a desk found there (0 for every other
/// reader), the turn's stamp, and the item. Contracts see the item; it takes no memory, since nothing that runs reads it again.
#[derive(Drop)]
pub struct TurnDone {
    lane: u32,
    at: u64,
    stamp: u64,
    item: Snapshot<Item>,
}

impl Model for TurnDone {
    ghost use Rattle.or_base.specs.TurnDone.{TurnDone as Turn};

    ghost Value = { Turn };

    ghost view = { λ t. record { lane = t.lane; at = t.at; stamp = t.stamp; item = t.item.value } };
}

impl TurnDone {
    /// The turn with the item that the snapshot shows.
    pub fn new(lane: u32, at: u64, stamp: u64, item: Snapshot<Item>) -> TurnDone
        ensures { result ≡ record { lane = lane; at = at; stamp = stamp; item = item.value } }
    {
        TurnDone {
            lane,
            at,
            stamp,
            item,
        }
    }

    /// The lane whose reader took the item.
    pub fn lane(&self) -> u32
        ensures { result ≡ self.now.lane }
    {
        self.lane
    }

    /// The length that a desk found.
    pub fn at(&self) -> u64
        ensures { result ≡ self.now.at }
    {
        self.at
    }

    /// The turn's stamp.
    pub fn stamp(&self) -> u64
        ensures { result ≡ self.now.stamp }
    {
        self.stamp
    }
}
