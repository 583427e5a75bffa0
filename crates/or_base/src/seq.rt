ghost use Rattle.std.specs.Prelude.{◌≡◌, IfOk};

use crate::memory::{Copied, NoMemory};
use std::alloc::{AllocError, Global};
use std::marker::Model;
use std::mem;
use std::sync::Arc;

/// Where the items of a list are: shared with its copies, or its own where it has no item or memory for the count
/// ran out.
#[derive(Drop)]
enum Items<T> {
    Shared(Arc<Vec<T>>),
    Owned(Vec<T>),
}

impl<T> Items<T> {
    /// The allocator of the items.
    fn alloc(&self) -> Global {
        match self {
            Items::Shared(shared) => *shared.allocator(),
            Items::Owned(owned) => *owned.allocator(),
        }
    }
}

/// A list that contracts see as the list of its items. Its copies share the items.
pub struct Seq<T> {
    items: Items<T>,
}

impl<T> Model for Seq<T> {
    ghost use Rattle.std.specs.Prelude.{List};
    ghost use Rattle.or_base.specs.Shared.{items_of};

    ghost Value = { List T };

    ghost view = { λ seq. items_of seq.items };
}

// Written out, so that a function that lets a list go doesn't look at whether its items are shared.
impl<T: Drop> Drop for Seq<T> {
    fn drop(self) {
        let Seq { items: _ } = self;
    }
}

impl<T> Seq<T> {
    /// The list of the vector's items. Where memory for their count runs out, each copy copies the items.
    pub fn from_vec(v: Vec<T>) -> Seq<T>
        ensures { result ≡ v.items }
    {
        if v.is_empty() {
            return Seq {
                items: Items::Owned(v),
            };
        }
        let items = match Arc::new(*v.allocator(), v) {
            Ok(shared) => Items::Shared(shared),
            Err(failed) => Items::Owned(failed.value),
        };
        Seq { items }
    }

    /// The items, in order.
    pub fn as_slice(&self) -> &[T]
        ensures { result.now ≡ self.now }
    {
        match &self.items {
            Items::Shared(shared) => shared.as_slice(),
            Items::Owned(owned) => owned.as_slice(),
        }
    }
}

impl<T: Copied> Seq<T> {
    /// The vector of the items. They are moved where no copy shares them, and else copied.
    pub fn into_vec(self) -> Result<Vec<T>, NoMemory>
        ensures { IfOk result (λ v. v.items ≡ self) }
    {
        let mut whole = self;
        let alloc = whole.items.alloc();
        match mem::replace(&mut whole.items, Items::Owned(Vec::new(alloc))) {
            Items::Owned(owned) => Ok(owned),
            Items::Shared(shared) => match Arc::try_unwrap(shared) {
                Ok(owned) => Ok(owned),
                Err(shared) => copied_items(alloc, shared.as_slice()),
            },
        }
    }

    /// An equal list.
    pub fn copied(&self) -> Result<Self, NoMemory>
        ensures { IfOk result (λ copy. copy ≡ self.now) }
    {
        Ok(self.clone()?)
    }
}

impl<T: Copied> Copied for Seq<T> {
    fn copied(&self) -> Result<Self, NoMemory> {
        Seq::copied(self)
    }
}

impl<T: Copied> Clone for Seq<T> {
    ghost is_clone = { λ x y. y ≡ x };

    fn clone(&self) -> Result<Self, AllocError> {
        let items = match &self.items {
            Items::Shared(shared) => Items::Shared(Arc::try_clone(shared)?),
            Items::Owned(owned) => Items::Owned(cloned_items(*owned.allocator(), owned)?),
        };
        Ok(Seq { items })
    }
}

/// Copies each item, in order, where the error is the allocator's.
fn cloned_items<T: Copied>(alloc: Global, items: &[T]) -> Result<Vec<T>, AllocError>
    ensures { IfOk result (λ copies. copies.items ≡ items.now) }
{
    match copied_items(alloc, items) {
        Ok(copies) => Ok(copies),
        Err(_) => Err(AllocError),
    }
}

/// Copies each item, in order.
pub fn copied_items<T: Copied>(alloc: Global, items: &[T]) -> Result<Vec<T>, NoMemory>
    ensures { IfOk result (λ copies. copies.items ≡ items.now) }
{
    let mut copies = Vec::new(alloc);
    for item in items {
        copies.push(item.copied()?)?;
    }
    Ok(copies)
}
