ghost use Rattle.std.specs.Prelude.{◌≡◌, ◌+◌, ◌-◌, ◌<◌, ◌≤◌, ◌==◌, ◌^◌, [], ◌∷◌, ◌++◌, length, slice_get, slice_set, insert, remove, IfOk};
ghost use Rattle.std.specs.Option.{option_copied};
ghost use Rattle.std.specs.Borrow.{sem};
ghost use Rattle.ct_word.specs.Kept.{Pops};

use crate::{Bytes, NoMemory};
use std::alloc::Global;
use std::marker::Model;
use std::mem;

/// A list whose memory was taken beforehand.
#[derive(Debug, Drop)]
pub struct Reserve<T> {
    list: Vec<T>,
}

impl<T> Model for Reserve<T> {
    ghost use Rattle.std.specs.Prelude.{◌-◌, vec_len, vec_capacity};
    ghost use Rattle.ct_word.specs.Kept.{Kept, kept_code};

    ghost Value = { Kept T };

    ghost coded = { kept_code T.code };

    ghost view = { λ k. record { items = k.list.items; room = vec_capacity k.list - vec_len k.list } };
}

impl<T> Reserve<T> {
    ghost use Rattle.ct_word.specs.Lends.{lends_item};

    /// An empty list with room for `count` items.
    pub fn open(alloc: Global, count: usize) -> Result<Reserve<T>, NoMemory>
        ensures { IfOk result (λ k. k ≡ record { items = []; room = count }) }
    {
        Ok(Reserve {
            list: Vec::with_capacity(alloc, count)?,
        })
    }

    pub fn len(&self) -> usize
        ensures { result ≡ length self.now.items }
    {
        self.list.len()
    }

    pub fn is_empty(&self) -> bool
        ensures { result ≡ (length self.now.items == 0) }
    {
        self.list.is_empty()
    }

    /// How many more items fit.
    pub fn room(&self) -> usize
        ensures { result ≡ self.now.room }
    {
        self.list.capacity() - self.list.len()
    }

    pub fn as_slice(&self) -> &[T]
        ensures { result.now ≡ self.now.items }
    {
        self.list.as_slice()
    }

    pub fn get(&self, at: usize) -> Option<&T>
        ensures { option_copied result ≡ slice_get self.now.items at }
    {
        self.list.get(at)
    }

    pub fn push(&mut self, item: T)
        requires { 0 < self.old.room }
        ensures { self.new ≡ record { items = self.old.items ++ item ∷ []; room = self.old.room - 1 } }
    {
        self.list.push_reserved(item);
    }

    /// Puts an item before the one at a place, or last.
    pub fn insert(&mut self, at: usize, item: T)
        requires within { at ≤ length self.old.items }
        requires room { 0 < self.old.room }
        ensures { self.new ≡ record { items = insert self.old.items at item; room = self.old.room - 1 } }
    {
        self.list.push_reserved(item);
        self.list[at..].rotate_right(1);
    }

    /// Takes off the last item, if there is one.
    pub fn pop(&mut self) -> Option<T>
        ensures { Pops self.old self.new result }
    {
        self.list.pop()
    }

    /// An item for writing.
    pub fn item_mut(&mut self, at: usize) -> &mut T
        requires { at < length self.old.items }
        ensures* writes_back { sem 𝓛 (lends_item T.row self.entry at result) }
        ensures value { slice_get self.old.items at ≡ Some result.now }
    {
        &mut self.list[at]
    }

    /// Puts another item in the place of one, which is handed out.
    pub fn replace(&mut self, at: usize, item: T) -> T
        requires { at < length self.old.items }
        ensures item { slice_get self.old.items at ≡ Some result }
        ensures rest { self.new ≡ record self.old { items = slice_set self.old.items at item } }
    {
        mem::replace(&mut self.list[at], item)
    }

    pub fn remove(&mut self, at: usize) -> T
        requires { at < length self.old.items }
        ensures item { slice_get self.old.items at ≡ Some result }
        ensures rest { self.new ≡ record { items = remove self.old.items at; room = self.old.room + 1 } }
    {
        self.list.remove(at)
    }
}

impl<T: Drop> Reserve<T> {
    pub fn set(&mut self, at: usize, item: T)
        requires { at < length self.old.items }
        ensures { self.new ≡ record self.old { items = slice_set self.old.items at item } }
    {
        self.list[at] = item;
    }
}

impl Reserve<u8> {
    /// Adds bytes at the end.
    pub fn append(&mut self, bytes: &[u8])
        requires { length bytes.now ≤ self.old.room }
        ensures { self.new ≡ record { items = self.old.items ++ bytes.now; room = self.old.room - length bytes.now } }
    {
        for byte in bytes {
            self.list.push_reserved(*byte);
        }
    }

    /// No bytes, in the same memory.
    pub fn into_empty(self) -> Bytes
        ensures { result ≡ [] }
    {
        let Reserve { mut list } = self;
        list.clear();
        Bytes::from_vec(list)
    }

    /// The bytes alone.
    pub fn into_bytes(self) -> Bytes
        ensures { result ≡ self.items }
    {
        let Reserve { list } = self;
        Bytes::from_vec(list)
    }
}
