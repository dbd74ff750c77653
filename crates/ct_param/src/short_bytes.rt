ghost use Rattle.std.specs.Prelude.{◌≡◌, ◌≤◌, ◌+◌, [], ◌++◌, length};

use std::marker::Model;

/// At most so many bytes, in an array of fixed size. Contracts see a list.
#[derive(Drop)]
pub struct ShortBytes<const MOST: usize> {
    bytes: [u8; MOST],
    len: usize,
}

impl<const MOST: usize> Model for ShortBytes<MOST> {
    ghost use Rattle.std.specs.Prelude.{◌≡◌, ◌≤◌, List, ℕ, length, take};

    ghost Value = { List ℕ };

    ghost view = { λ b. take b.len b.bytes };

    ghost invariant = { λ b. (b.len ≤ MOST) × (length b.bytes ≡ MOST) };
}

impl<const MOST: usize> ShortBytes<MOST> {
    pub fn none() -> ShortBytes<MOST>
        ensures { result ≡ [] }
    {
        ShortBytes {
            bytes: [0; MOST],
            len: 0,
        }
    }

    pub fn of(part: &[u8]) -> ShortBytes<MOST>
        requires { length part.now ≤ MOST }
        ensures { result ≡ part.now }
    {
        let mut bytes = ShortBytes::none();
        bytes.append(part);
        bytes
    }

    pub fn len(&self) -> usize
        ensures { result ≡ length self.now }
    {
        self.len
    }

    pub fn as_slice(&self) -> &[u8]
        ensures { result.now ≡ self.now }
    {
        &self.bytes[..self.len]
    }

    pub fn append(&mut self, part: &[u8])
        requires { length self.old + length part.now ≤ MOST }
        ensures { self.new ≡ self.old ++ part.now }
    {
        let end = self.len + part.len();
        let bytes = &mut self.bytes[..];
        bytes[self.len..end].copy_from_slice(part);
        self.len = end;
    }
}
