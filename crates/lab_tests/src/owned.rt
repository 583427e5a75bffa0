//! kv_self: what a node offers under its own keys.

use crate::fixtures::{name, value_by};
use kv_self::{Owned, SelfFault};
use or_base::{Bytes, Held, Key, KvValue, NoMemory};
use std::alloc::Global;
use std::test::Fail;

/// The keys of a node that owns k alone, with the byte 1 and a lifetime of 100 ms.
fn owned_k(alloc: Global) -> Result<Owned, NoMemory> {
    let mut owned = Owned::new(alloc);
    owned.persist(
        key_k(alloc)?,
        Bytes::from_vec([1].to_vec(alloc)?),
        Some(100),
    )?;
    Ok(owned)
}

fn key_k(alloc: Global) -> Result<Key, NoMemory> {
    Ok(Key::from_string(String::from_str(alloc, "k")?))
}

/// The version that the node a offers over another's value; where it is outvoted, the version that outvotes it.
fn answer_over(alloc: Global, version: u64) -> Result<Result<u64, u64>, NoMemory> {
    let owned = owned_k(alloc)?;
    let value = value_by(alloc, version, "b", &[2])?;
    let held = Held {
        value: &value,
        merged_at: 0,
    };
    match owned.on_change(&name(alloc, "a")?, &key_k(alloc)?, Some(held)) {
        Ok(Some(offered)) => Ok(Ok(offered.version)),
        Ok(None) => Ok(Ok(0)),
        Err(SelfFault::Outvoted { version }) => Ok(Err(version)),
        Err(SelfFault::NoMemory) => Err(NoMemory),
    }
}

#[test]
fn a_node_covers_a_value_or_is_outvoted(rt: HostRuntime) -> Result<(), Fail> {
    assert!(rt; answer_over(rt.alloc(), 100)? == Ok(101));
    assert!(rt;
        answer_over(rt.alloc(), 4_611_686_018_427_387_903)? == Ok(4_611_686_018_427_387_904)
    );
    assert!(rt;
        answer_over(rt.alloc(), 4_611_686_018_427_387_904)? == Err(4_611_686_018_427_387_904)
    );
    Ok(())
}

/// The TTL version that a value with a lifetime of 100 ms, merged at 7, gets at a moment; 0 where it stays as it is.
fn refreshed_at(alloc: Global, now: u64) -> Result<u64, NoMemory> {
    let owned = owned_k(alloc)?;
    let value = KvValue {
        ttl: Some(100),
        ttl_version: 8,
        ..value_by(alloc, 1, "a", &[1])?
    };
    let held = Held {
        value: &value,
        merged_at: 7,
    };
    match owned.refresh(&key_k(alloc)?, held, now)? {
        Some(again) => Ok(again.ttl_version),
        None => Ok(0),
    }
}

#[test]
fn a_lifetime_begins_anew_after_a_quarter(rt: HostRuntime) -> Result<(), Fail> {
    assert!(rt; refreshed_at(rt.alloc(), 31)? == 0);
    assert!(rt; refreshed_at(rt.alloc(), 32)? == 9);
    Ok(())
}
