ghost use Rattle.std.specs.Prelude.{◌≡◌, Bool, Option, IfOk, OnOk, option_map};
ghost use Rattle.json.specs.Tree.{json_tokens, items_tokens};
ghost use Rattle.serde_json.specs.Data.{Data};
ghost use Rattle.serde_json.specs.View.{view, items_view};
ghost use Rattle.serde_json.specs.Written.{outline, items_outline};
ghost use Rattle.or_json.specs.Appended.{Appends};
ghost use Rattle.or_json.specs.Items.{items_data, items_of, has_key_of, have_distinct_keys, keep_limits};

use json::Writer;
use or_base::NoMemory;
use serde_json::Value;
use std::alloc::Global;

/// An item of a record's list. Two items with the same key don't stand in one list.
pub trait RecordItem: Drop {
    /// How it is written.
    ghost item_data: { Self → Data };

    /// The item that a value is.
    ghost item_of: { Data → Option Self };

    ghost has_same_key: { Self → Self → Bool };

    /// Appends the item.
    fn write(&self, alloc: Global, out: &mut Writer) -> Result<(), NoMemory>
        ensures { OnOk result (Appends out.old out.new (json_tokens (outline (item_data self.now)))) };

    /// The item that a value is.
    fn item_of(alloc: Global, value: &Value) -> Result<Option<Self>, NoMemory>
        ensures { IfOk result (λ found. found ≡ item_of (view value.now)) };

    /// The two have the same key.
    fn has_same_key(&self, other: &Self) -> bool
        ensures { result ≡ has_same_key self.now other.now };
}

/// Appends items and the end of their list.
pub fn write_items<T: RecordItem>(
    alloc: Global,
    out: &mut Writer,
    items: &[T],
) -> Result<(), NoMemory>
    ensures { OnOk result (Appends out.old out.new (items_tokens (items_outline (items_data T.item_data items.now)))) }
{
    for item in items {
        item.write(alloc, out)?;
    }
    out.end_array()?;
    Ok(())
}

/// The items that values are.
pub fn items_of<T: RecordItem>(alloc: Global, values: &[Value]) -> Result<Option<Vec<T>>, NoMemory>
    ensures { IfOk result (λ found. option_map (λ all. all.items) found ≡ items_of T.item_of (items_view values.now)) }
{
    let mut read = Vec::new(alloc);
    for value in values {
        let Some(item) = T::item_of(alloc, value)? else {
            return Ok(None);
        };
        read.push(item)?;
    }
    Ok(Some(read))
}

/// One of them has the key of this item.
fn has_key_of<T: RecordItem>(items: &[T], item: &T) -> bool
    ensures { result ≡ has_key_of T.has_same_key items.now item.now }
{
    items.iter().any(|other| other.has_same_key(item))
}

/// No key is there twice.
fn have_distinct_keys<T: RecordItem>(items: &[T]) -> bool
    ensures { result ≡ have_distinct_keys T.has_same_key items.now }
{
    let mut left = items;
    while let Some((first, rest)) = left.split_first() {
        if has_key_of(rest, first) {
            return false;
        }
        left = rest;
    }
    true
}

/// There are at most so many, with distinct keys.
pub fn keep_limits<T: RecordItem>(most: usize, items: &[T]) -> bool
    ensures { result ≡ keep_limits T.has_same_key most items.now }
{
    items.len() <= most && have_distinct_keys(items)
}
