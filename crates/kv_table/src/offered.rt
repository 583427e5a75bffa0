ghost use Rattle.std.specs.Prelude.{◌≡◌};
ghost use Rattle.std.specs.Option.{option_map};
ghost use Rattle.or_base.specs.Journal.{exceeds};

use kv_value::value_cmp;
use or_base::{Held, KvValue};
use std::cmp::Ordering;

/// What becomes of an offer.
#[derive(Clone, Copy, Debug, PartialEq, Eq)]
pub enum Offered {
    /// The pair was merged.
    Changed,
    /// The pair is valid, and the value held under its key is at least as great.
    Kept,
    /// The key or the value is beyond a limit.
    Invalid,
}

/// Nothing is held, or what is held is less than the value.
pub(crate) fn exceeds(value: &KvValue, held: Option<Held<'_>>) -> bool
    ensures { result ≡ exceeds value.now (option_map (λ held. (held.value.now, held.merged_at)) held.entry) }
{
    match held {
        None => true,
        Some(held) => value_cmp(held.value, value) == Ordering::Less,
    }
}
