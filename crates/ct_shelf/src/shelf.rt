ghost use Rattle.std.specs.Prelude.{◌≡◌, ◌-◌, ◌+◌, ◌<◌, ◌≤◌, ◌==◌, [], ◌∷◌, ◌++◌, length, slice_get, insert, remove, Some, IfOk};
ghost use Rattle.std.specs.Option.{option_copied};
ghost use Rattle.std.specs.Borrow.{sem};

use ct_word::{NoMemory, Reserve};
use slab::Slab;
use std::alloc::Global;
use std::marker::Model;

/// A list whose memory was taken beforehand. Where an item goes in or out, the keys of the items behind it move, and
/// no item does.
#[derive(Debug, Drop)]
pub struct Shelf<T> {
    slots: Slab<T>,
    // The keys of the items, in the order of the list.
    order: Reserve<usize>,
}

impl<T> Model for Shelf<T> {
    ghost use Rattle.std.specs.Prelude.{filter_map};
    ghost use Rattle.slab.specs.Slab.{get};
    ghost use Rattle.ct_word.specs.Kept.{Kept, kept_code};
    ghost use Rattle.ct_shelf.specs.Shelves.{IsSound};

    ghost Value = { Kept T };

    ghost coded = { kept_code T.code };

    ghost view = { λ s. record { items = filter_map (get s.slots) s.order.items; room = s.order.room } };

    ghost invariant = { λ s. IsSound s.slots s.order };
}

impl<T> Shelf<T> {
    ghost use Rattle.ct_shelf.specs.Lends.{lends_item};

    /// An empty list with room for `count` items.
    pub fn open(alloc: Global, count: usize) -> Result<Shelf<T>, NoMemory>
        ensures { IfOk result (λ s. s ≡ record { items = []; room = count }) }
    {
        let order = Reserve::open(alloc, count)?;
        Ok(Shelf {
            slots: Slab::with_capacity(alloc, count)?,
            order,
        })
    }

    pub fn len(&self) -> usize
        ensures { result ≡ length self.now.items }
    {
        self.order.len()
    }

    pub fn is_empty(&self) -> bool
        ensures { result ≡ (length self.now.items == 0) }
    {
        self.order.is_empty()
    }

    /// How many more items fit.
    pub fn room(&self) -> usize
        ensures { result ≡ self.now.room }
    {
        self.order.room()
    }

    pub fn item(&self, at: usize) -> &T
        requires { at < length self.now.items }
        ensures { slice_get self.now.items at ≡ Some result.now }
    {
        &self.slots[key_at(&self.order, at)]
    }

    /// An item for writing.
    pub fn item_mut(&mut self, at: usize) -> &mut T
        requires { at < length self.old.items }
        ensures* writes_back { sem 𝓛 (lends_item T.row self.entry at result) }
        ensures value { slice_get self.old.items at ≡ Some result.now }
    {
        &mut self.slots[key_at(&self.order, at)]
    }

    pub fn push(&mut self, item: T)
        requires { 0 < self.old.room }
        ensures { self.new ≡ record { items = self.old.items ++ item ∷ []; room = self.old.room - 1 } }
    {
        let last = self.len();
        self.insert(last, item);
    }

    /// Puts an item before the one at a place, or last.
    pub fn insert(&mut self, at: usize, item: T)
        requires within { at ≤ length self.old.items }
        requires room { 0 < self.old.room }
        ensures { self.new ≡ record { items = insert self.old.items at item; room = self.old.room - 1 } }
    {
        let key = self.slots.insert_reserved(item);
        self.order.insert(at, key);
    }

    pub fn remove(&mut self, at: usize) -> T
        requires { at < length self.old.items }
        ensures item { slice_get self.old.items at ≡ Some result }
        ensures rest { self.new ≡ record { items = remove self.old.items at; room = self.old.room + 1 } }
    {
        let key = self.order.remove(at);
        self.slots.remove(key)
    }
}

// The key of the item at a place.
fn key_at(order: &Reserve<usize>, at: usize) -> usize
    requires { at < length order.now.items }
    ensures { slice_get order.now.items at ≡ Some result }
{
    order.as_slice()[at]
}
