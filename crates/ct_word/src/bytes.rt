ghost use Rattle.std.specs.Prelude.{◌≡◌, ◌<◌, ◌^◌, [], length, ◌==◌};

use std::alloc::Global;
use std::marker::Model;

/// Bytes on the heap, as contracts see them: a list.
#[derive(Debug, Drop)]
pub struct Bytes {
    list: Vec<u8>,
}

impl Model for Bytes {
    ghost use Rattle.std.specs.Prelude.{List, ℕ};

    ghost Value = { List ℕ };

    ghost view = { λ b. b.list.items };
}

impl Bytes {
    /// No bytes.
    pub fn new(alloc: Global) -> Bytes
        ensures { result ≡ [] }
    {
        Bytes {
            list: Vec::new(alloc),
        }
    }

    pub fn from_vec(list: Vec<u8>) -> Bytes
        ensures { result ≡ list.items }
    {
        Bytes { list }
    }

    pub fn as_slice(&self) -> &[u8]
        ensures { result.now ≡ self.now }
    {
        self.list.as_slice()
    }

    pub fn len(&self) -> usize
        ensures len { result ≡ length self.now }
        ensures small { result < 2 ^ 63 }
    {
        self.list.len()
    }

    pub fn is_empty(&self) -> bool
        ensures { result ≡ (length self.now == 0) }
    {
        self.list.is_empty()
    }
}
