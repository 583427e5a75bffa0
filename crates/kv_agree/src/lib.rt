//! What full syncs make two stores hold.
//!
//! A full sync carries what either store has better to the other. Two journals agree where under each key both hold
//! nothing, or both hold values that are the same but for their lifetime (`Agree`, `specs/Agreement.antt`). The promise,
//! over the definitions of kv_sync and kv_table alone, is that one round is enough: once the pairs of a full sync's reply
//! and of its push have been offered, nothing was withheld since its lifetime was too short, and all that either journal
//! has more is what the full sync itself merged, the two journals agree, unless two values collide in their hash
//! (`exchanges_agree`, with its words in `specs/Exchange.antt`). Stores that are joined at a settle, through finished
//! full syncs that withheld nothing and past whose lengths nothing came, all agree (`joined_stores_agree`,
//! `specs/Joined.antt`).
//!
//! Every store meets two of that promise's premises: its journal is made of offers, expiries and restarts, and the pairs
//! that it sends in full syncs are within the limits, as long as its ticks don't go back (`stores_stay_orderly`, with its
//! words in `specs/Orderly.antt`).
//!
//! The same is promised of two stores at the ends of a link (`paired_stores_agree`): `specs/Paired.antt` says what holds
//! between them while messages are lost, repeated, held back and put in another order, with the item that made each entry
//! beside the journals (`specs/Traced.antt`).
//!
//! The crate has laws only, and no code.
#![tactic(auto)]

ghost use Rattle.kv_agree.specs.Exchange.{ExchangesAgree};
ghost use Rattle.kv_agree.specs.Joined.{PairedStoresAgree};
ghost use Rattle.kv_agree.specs.Orderly.{StaysOrderly};
ghost use Rattle.kv_agree.specs.Paired.{PairedAgree, StaysPaired};

/// One round is enough: after a full sync that nothing disturbed and of which nothing was withheld, the journals of its
/// starter and its peer agree, unless two of their values collide in their hash.
pub fn exchanges_agree()
    ensures { ExchangesAgree }
{}

/// A new store is orderly, and stays so over turns whose ticks don't go back; the pairs that it sends in full syncs are
/// within the limits.
pub fn stores_stay_orderly()
    ensures { StaysOrderly }
{}

/// Two new stores are paired, and paired stores stay so over each turn of either, whatever is lost, repeated, held back or
/// put in another order between them.
pub fn paired_stores_stay_paired()
    ensures { StaysPaired }
{}

/// One round is enough for paired stores: after a finished full sync of which nothing was withheld, and where all that
/// either journal has more came in it, they agree, unless two of their values collide in their hash.
pub fn paired_stores_agree()
    ensures { PairedAgree }
{}

/// Stores that are paired agree: all of a joined part at a settle, and two after one round; unless two of their values
/// collide in their hash.
pub fn joined_stores_agree()
    ensures { PairedStoresAgree }
{}
