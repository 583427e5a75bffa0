//! The order of values, and joining by it.
//!
//! Wherever there are two values for one key, in a store, in a sync or in a test, `value_cmp` decides which of them stays. It compares the version, then the originator, then the value bytes, then the TTL version; the
//! lifetime itself isn't compared, so values that compare as equal are the same but for their TTL. `greater_of` gives
//! the greater of two. The promise of this crate is `joining_has_laws`: joining is commutative, associative and
//! idempotent up to such sameness, so values that are joined in any order and grouping, and any number of times
//! each, give the same. The order is defined in or_base, the joined value and its laws in `specs/Joined.antt`.
//! `sent_ttl` says with which lifetime a value is sent (`specs/Sending.antt`), and `hash_of` gives the hash by which a
//! digest tells values of one version and originator apart (`specs/Hashing.antt`). Nothing here allocates.
#![tactic(auto)]

ghost use Rattle.std.specs.Prelude.{◌≡◌};
ghost use Rattle.or_base.specs.Order.{value_cmp};
ghost use Rattle.kv_value.specs.Joined.{greater_of, JoinLaws};

mod hash;
mod sent;

pub use hash::hash_of;
use or_base::KvValue;
pub use sent::{Sent, sent_ttl};
use std::cmp::Ordering;

/// Compares two values by version, originator, value bytes and TTL version, in this order. Names and bytes are
/// compared byte by byte, and a proper prefix is less.
#[tactic(auto, unfolding(or_base::specs::Order::value_cmp))]
pub fn value_cmp(a: &KvValue, b: &KvValue) -> Ordering
    ensures { result ≡ value_cmp a.now b.now }
{
    a.version
        .cmp(&b.version)
        .then_with(|| a.originator.as_str().cmp(&b.originator.as_str()))
        .then_with(|| a.value.as_slice().cmp(b.value.as_slice()))
        .then_with(|| a.ttl_version.cmp(&b.ttl_version))
}

/// The greater of two values; `a` where they compare as equal.
pub fn greater_of<'a>(a: &'a KvValue, b: &'a KvValue) -> &'a KvValue
    ensures { result.now ≡ greater_of a.now b.now }
{
    if value_cmp(a, b) == Ordering::Less {
        b
    } else {
        a
    }
}

/// The laws of joining: neither the order, nor the grouping, nor repetition changes the joined value, but for its
/// lifetime.
pub fn joining_has_laws()
    ensures { JoinLaws }
{}
