ghost use Rattle.std.specs.Prelude.{◌≡◌, ◌≢◌, ◌<◌, IfOk, IsTrue, Err};
ghost use Rattle.std.specs.Option.{option_map};
ghost use Rattle.or_base.specs.Limits.{most_version};
ghost use Rattle.kv_self.specs.Owned.{own_under};
ghost use Rattle.kv_self.specs.Change.{is_own, stands, held_version, own_offer, on_change, is_offer};
ghost use Rattle.kv_self.specs.declared.fault.SelfFault.TheVariants as fault;

use crate::fault::SelfFault;
use crate::own::OwnValue;
use crate::owned::Owned;
use or_base::{Held, Key, KvValue, MOST_VERSION, Name, NoMemory};

/// Whether the value is from this node and has the bytes that are to stand.
fn is_own(me: &Name, own: &OwnValue, value: &KvValue) -> bool
    ensures { result ≡ is_own me.now own.now value.now }
{
    value.originator.as_str() == me.as_str() && value.value.as_slice() == own.value.as_slice()
}

/// Whether what is to stand under a key is held there, from this node.
fn stands(me: &Name, own: &OwnValue, held: Option<Held<'_>>) -> bool
    ensures { result ≡ stands me.now own.now (option_map (λ h. (h.value.now, h.merged_at)) held.entry) }
{
    match held {
        Some(held) => is_own(me, own, held.value),
        None => false,
    }
}

/// The version of what is held; 0 where nothing is held.
fn held_version(held: Option<Held<'_>>) -> u64
    ensures { result ≡ held_version (option_map (λ h. (h.value.now, h.merged_at)) held.entry) }
{
    match held {
        Some(held) => held.value.version,
        None => 0,
    }
}

/// What is to stand under a key, as a value of this node with the version after this one.
fn own_offer(me: &Name, own: &OwnValue, version: u64) -> Result<KvValue, NoMemory>
    requires { version < most_version }
    ensures { IfOk result (λ value. value ≡ own_offer me.now own.now version) }
{
    Ok(KvValue {
        version: version + 1,
        originator: me.copied()?,
        value: own.value.copied()?,
        ttl: own.ttl,
        ttl_version: 0,
    })
}

impl Owned {
    /// What this node, `me`, offers where what is held under the key has changed, or what is to stand there: nothing
    /// where the key isn't owned or its own value stands, else its own value with the next version. It is `Outvoted`
    /// where what is held has the greatest version already.
    pub fn on_change(
        &self,
        me: &Name,
        key: &Key,
        held: Option<Held<'_>>,
    ) -> Result<Option<KvValue>, SelfFault>
        ensures answer { result ≢ Err fault.NoMemory
            → result ≡ on_change me.now (own_under self.now key.now) (option_map (λ h. (h.value.now, h.merged_at)) held.entry) }
        ensures memory { result ≡ Err fault.NoMemory
            → IsTrue (is_offer (on_change me.now (own_under self.now key.now) (option_map (λ h. (h.value.now, h.merged_at)) held.entry))) }
    {
        let Some(own) = self.own_under(key) else {
            return Ok(None);
        };
        if stands(me, own, held) {
            return Ok(None);
        }
        let version = held_version(held);
        if version >= MOST_VERSION {
            return Err(SelfFault::Outvoted { version });
        }
        Ok(Some(own_offer(me, own, version)?))
    }
}
