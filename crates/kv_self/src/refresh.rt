ghost use Rattle.std.specs.Prelude.{◌≡◌, ◌<◌, IfOk, OnErr, IsSome, Some};
ghost use Rattle.or_base.specs.Limits.{most_ttl_version};
ghost use Rattle.kv_self.specs.Owned.{own_under};
ghost use Rattle.kv_self.specs.Refresh.{is_quarter_over, is_due, with_new_lifetime, refresh};

use crate::own::OwnValue;
use crate::owned::Owned;
use or_base::{Held, Key, KvValue, MOST_TTL_VERSION, NoMemory};

/// Whether a quarter of the lifetime or more has passed since the merge. All are in milliseconds.
fn is_quarter_over(ttl: u64, merged_at: u64, now: u64) -> bool
    ensures { result ≡ is_quarter_over ttl merged_at now }
{
    // Four times what has passed can be past the range of u64.
    let passed = u128::from(now.saturating_sub(merged_at));
    u128::from(ttl) <= 4 * passed
}

/// Whether what is held has a lifetime of which a quarter has passed, and a TTL version below the greatest.
fn is_due(held: Held<'_>, now: u64) -> bool
    ensures { result ≡ is_due (held.entry.value.now, held.entry.merged_at) now }
{
    match held.value.ttl {
        Some(ttl) => {
            is_quarter_over(ttl, held.merged_at, now) && held.value.ttl_version < MOST_TTL_VERSION
        }
        None => false,
    }
}

/// The same value with a lifetime that begins anew.
fn with_new_lifetime(value: &KvValue, ttl: Option<u64>) -> Result<KvValue, NoMemory>
    requires { value.now.ttl_version < most_ttl_version }
    ensures { IfOk result (λ again. again ≡ with_new_lifetime value.now ttl) }
{
    Ok(KvValue {
        version: value.version,
        originator: value.originator.copied()?,
        value: value.value.copied()?,
        ttl,
        ttl_version: value.ttl_version + 1,
    })
}

impl OwnValue {
    /// What the node offers at the moment `now` in milliseconds so that what is held under the key doesn't expire: the
    /// same value with this lifetime and the next TTL version, once a quarter of the lifetime that it was held with has
    /// passed. None where either has no lifetime. Whose value is held isn't asked: that is `on_change`'s part. It takes
    /// memory only for what it offers.
    pub fn refresh(&self, held: Held<'_>, now: u64) -> Result<Option<KvValue>, NoMemory>
        ensures answer { IfOk result
            (λ again. again ≡ refresh (Some self.now) (held.entry.value.now, held.entry.merged_at) now) }
        ensures memory { OnErr result
            (IsSome (refresh (Some self.now) (held.entry.value.now, held.entry.merged_at) now)) }
    {
        if self.ttl.is_none() || !is_due(held, now) {
            return Ok(None);
        }
        Ok(Some(with_new_lifetime(held.value, self.ttl)?))
    }
}

impl Owned {
    /// What the node offers at the moment `now` in milliseconds so that what is held under the key doesn't expire:
    /// nothing where the key isn't owned, else what `OwnValue::refresh` gives.
    pub fn refresh(&self, key: &Key, held: Held<'_>, now: u64) -> Result<Option<KvValue>, NoMemory>
        ensures answer { IfOk result
            (λ again. again ≡ refresh (own_under self.now key.now) (held.entry.value.now, held.entry.merged_at) now) }
        ensures memory { OnErr result
            (IsSome (refresh (own_under self.now key.now) (held.entry.value.now, held.entry.merged_at) now)) }
    {
        match self.own_under(key) {
            Some(own) => own.refresh(held, now),
            None => Ok(None),
        }
    }
}
