//! or_timer: which keys are due, and in which order.

use or_base::{Key, NoMemory};
use or_timer::Wheel;
use std::alloc::Global;
use std::test::Fail;

/// The key of a text.
fn key(alloc: Global, text: &str) -> Result<Key, NoMemory> {
    Ok(Key::from_string(String::from_str(alloc, text)?))
}

/// The texts of keys, with a space after each.
fn texts(alloc: Global, keys: &[Key]) -> Result<String, NoMemory> {
    let mut all = String::new(alloc);
    for key in keys {
        all.push_str(key.as_str())?;
        all.push_str(" ")?;
    }
    Ok(all)
}

/// What is due at 5 and then at 5 again, where `b` and `a` are due at 5 and `c` at 3.
fn due_twice(alloc: Global) -> Result<(String, String), NoMemory> {
    let mut wheel = Wheel::new(alloc);
    wheel.set(key(alloc, "b")?, 5)?;
    wheel.set(key(alloc, "a")?, 5)?;
    wheel.set(key(alloc, "c")?, 3)?;
    let first = wheel.due(5)?;
    let second = wheel.due(5)?;
    Ok((
        texts(alloc, first.as_slice())?,
        texts(alloc, second.as_slice())?,
    ))
}

#[test]
fn keys_are_due_once_by_deadline_and_then_by_key(rt: HostRuntime) -> Result<(), Fail> {
    let (first, second) = due_twice(rt.alloc())?;
    assert_eq!(rt; first.as_str(), "c a b ");
    assert_eq!(rt; second.as_str(), "");
    Ok(())
}

/// How many are due at a moment, and which, where `a` was set at 4 and then at 9, `b` at 7 and `c`, which was cancelled, at 2.
fn due_at(alloc: Global, now: u64) -> Result<(usize, String), NoMemory> {
    let mut wheel = Wheel::new(alloc);
    wheel.set(key(alloc, "a")?, 4)?;
    wheel.set(key(alloc, "c")?, 2)?;
    wheel.set(key(alloc, "a")?, 9)?;
    wheel.set(key(alloc, "b")?, 7)?;
    wheel.cancel(&key(alloc, "c")?);
    let count = wheel.count_due(now);
    Ok((count, texts(alloc, wheel.due(now)?.as_slice())?))
}

#[test]
fn the_last_deadline_of_a_key_counts(rt: HostRuntime) -> Result<(), Fail> {
    for (now, count, want) in [
        (6, 0, ""),
        (7, 1, "b "),
        (8, 1, "b "),
        (u64::MAX, 2, "b a "),
    ] {
        let (counted, keys) = due_at(rt.alloc(), now)?;
        assert_eq!(rt; counted, count, "at {now} ms");
        assert_eq!(rt; keys.as_str(), want, "at {now} ms");
    }
    Ok(())
}
