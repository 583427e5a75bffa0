//! The keys that a node owns.
//!
//! A node owns some keys, each with what is to stand under it: value bytes and a time to live. Others may write the
//! same keys, so it looks at what is held under its own keys. Where its value doesn't stand, since another's covers it,
//! it was lost or something else is to stand there now, it writes its value with the version after the one that is held
//! (`on_change`, defined in `specs/Change.antt`). Where a value is held with a lifetime of which a quarter has passed,
//! it writes it again with the next TTL version, so that the lifetime begins anew (`refresh`, defined in
//! `specs/Refresh.antt`). Over a value with the greatest version there is no next one, which is told as `Outvoted`.
//!
//! `Owned` keeps the keys; contracts see them as a list of keys with their own values, in byte order
//! (`specs/Owned.antt`). It knows no table: the caller hands it what is held, and offers what it gives. Who goes over
//! all owned keys takes `iter` and `OwnValue::refresh`: that copies nothing, looks nothing up among them, and takes
//! memory only for a value that is offered.
//!
//! The promises are that both calls give exactly what is defined, and run out of memory only where they offer
//! something; and, of the definitions, that what a node offers is taken: it exceeds what is held, is within the limits
//! where the node's name, its key and its own value are, and then its value stands (`own_offers_are_taken`,
//! `refreshes_are_taken`, with the statements in `specs/Law.antt`).
//!
//! The files: `own` (plain data), `owned` (the keys), `change`, `refresh`, `fault` (why nothing is written).
#![tactic(auto)]

ghost use Rattle.kv_self.specs.Law.{OwnOffersAreTaken, RefreshesAreTaken};

mod change;
mod fault;
mod own;
mod owned;
mod refresh;

pub use fault::SelfFault;
pub use own::OwnValue;
pub use owned::Owned;

/// The law of own values. What `on_change` makes a node offer exceeds what is held under the key, and is valid where
/// the node's name, the key and what is to stand there are within the limits. Once a store is offered it, the node's
/// value stands there.
pub fn own_offers_are_taken()
    ensures { OwnOffersAreTaken }
{}

/// The law of refreshed values. What `refresh` makes a node offer exceeds what is held, and is valid where that is and
/// the new lifetime is within its limit. Where the node's value stood, it stands still.
pub fn refreshes_are_taken()
    ensures { RefreshesAreTaken }
{}
