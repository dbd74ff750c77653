ghost use Rattle.std.specs.Prelude.{◌≡◌, ◌↔◌, ◌+◌, ◌≤◌, ◌<◌, ◌^◌, length, true, false, ◌++◌, ◌∷◌, [], nat_lt, max, min, IsTrue};
ghost use Rattle.std.specs.List.{All};
ghost use Rattle.ct_matrix.specs.Extents.{Print, share_a_block, blocks_in, overlap, TouchesBoth, insert, extents_if};
ghost use Rattle.ct_matrix.specs.Extents.{IsRising, EndBy};

use ct_word::limit::MOST_RANGES;
use std::marker::Model;

/// A range of blocks.
#[derive(Clone, Copy, Debug, PartialEq, Eq)]
pub struct Extent {
    pub first: u32,
    pub count: u32,
}

/// Ranges of blocks, at most 64, of fixed size. Contracts see a list.
#[derive(Debug, Drop)]
pub(crate) struct Extents {
    extents: [Extent; MOST_RANGES],
    count: usize,
}

impl Model for Extents {
    ghost use Rattle.std.specs.Prelude.{◌≡◌, ◌≤◌, List, length, take};
    ghost use Rattle.ct_matrix.specs.declared.blocks.Extent.{Extent};

    ghost Value = { List Extent };

    ghost view = { λ e. take e.count e.extents };

    ghost invariant = { λ e. (e.count ≤ 64) × (length e.extents ≡ 64) };
}

impl Extents {
    pub(crate) fn none() -> Extents
        ensures { result ≡ [] }
    {
        Extents {
            extents: [Extent { first: 0, count: 0 }; MOST_RANGES],
            count: 0,
        }
    }

    fn as_slice(&self) -> &[Extent]
        ensures extents { result.now ≡ self.now }
    {
        &self.extents[..self.count]
    }

    fn push(&mut self, extent: Extent)
        requires { length self.old < 64 }
        ensures { self.new ≡ self.old ++ extent ∷ [] }
    {
        self.extents[self.count] = extent;
        self.count += 1;
    }

    fn push_all(&mut self, extents: &[Extent])
        requires { length self.old + length extents.now ≤ 64 }
        ensures { self.new ≡ self.old ++ extents.now }
    {
        if let [first, others @ ..] = extents {
            self.push(*first);
            self.push_all(others);
        }
    }

    // Adds these ranges, with one more in its place.
    fn push_with(&mut self, extent: Extent, extents: &[Extent])
        requires { length self.old + length extents.now < 64 }
        ensures { self.new ≡ self.old ++ insert extent extents.now }
    {
        match extents {
            [] => self.push(extent),
            [first, others @ ..] => {
                if extent.first <= first.first {
                    self.push(extent);
                    self.push_all(extents);
                } else {
                    self.push(*first);
                    self.push_with(extent, others);
                }
            }
        }
    }

    /// These ranges with one more, which stands in its place in rising order.
    pub(crate) fn with(&self, extent: Extent) -> Extents
        requires { length self.now < 64 }
        ensures { result ≡ insert extent self.now }
    {
        let mut extents = Extents::none();
        extents.push_with(extent, self.as_slice());
        extents
    }
}

/// The blocks that a command reads and writes, of fixed size. Contracts see two lists of ranges.
#[derive(Debug, Drop)]
pub struct Footprint {
    // In rising order. The command reads all of them or none, and writes all or none.
    extents: Extents,
    // The block behind the last of them, or one behind it.
    end: u64,
    reads: bool,
    writes: bool,
}

impl Model for Footprint {
    ghost use Rattle.ct_matrix.specs.Extents.{Print, extents_if, IsRising, EndBy};

    ghost Value = { Print };

    ghost view = { λ f. record { reads = extents_if f.reads f.extents; writes = extents_if f.writes f.extents } };

    ghost invariant = { λ f. IsRising f.extents × EndBy f.end f.extents };
}

impl Footprint {
    /// A footprint of ranges in rising order, which a command reads, or writes, or both.
    pub(crate) fn new(extents: Extents, reads: bool, writes: bool) -> Footprint
        requires { IsRising extents }
        ensures { result ≡ record { reads = extents_if reads extents; writes = extents_if writes extents } }
    {
        let end = end_of(extents.as_slice());
        Footprint {
            extents,
            end,
            reads,
            writes,
        }
    }
}

fn end(extent: Extent) -> u64
    ensures end { result ≡ extent.first + extent.count }
    ensures small { result < 2 ^ 33 }
{
    u64::from(extent.first) + u64::from(extent.count)
}

// The first block behind all of these ranges.
fn end_of(extents: &[Extent]) -> u64
    ensures { EndBy result extents.now }
{
    match extents {
        [] => 0,
        [first, others @ ..] => end(*first).max(end_of(others)),
    }
}

// Some block is in both ranges.
fn meet(a: Extent, b: Extent) -> bool
    ensures { result ≡ nat_lt (max a.first b.first) (min (a.first + a.count) (b.first + b.count)) }
{
    u64::from(a.first.max(b.first)) < end(a).min(end(b))
}

// Some block is in ranges of both lists, which one walk finds.
fn share(a: &[Extent], b: &[Extent]) -> bool
    requires a { IsRising a.now }
    requires b { IsRising b.now }
    ensures { result ≡ share_a_block (blocks_in a.now) (blocks_in b.now) }
{
    match a {
        [] => false,
        [first, others @ ..] => match b {
            [] => false,
            [other, rest @ ..] => {
                if meet(*first, *other) {
                    true
                } else if end(*first) <= end(*other) {
                    share(others, b)
                } else {
                    share(a, rest)
                }
            }
        },
    }
}

// All ranges in rising order begin at this block, or behind it.
fn begin_behind(extents: &[Extent], block: u64) -> bool
    requires { IsRising extents.now }
    ensures { IsTrue result → All (λ extent. block ≤ extent.first) extents.now }
{
    match extents {
        [] => true,
        [first, ..] => block <= u64::from(first.first),
    }
}

// Some block is in ranges of both lists, which end by these blocks. Where the one list ends before the other begins, no
// two ranges are compared.
fn share_by(a: &[Extent], end_of_a: u64, b: &[Extent], end_of_b: u64) -> bool
    requires a { IsRising a.now }
    requires b { IsRising b.now }
    requires end_of_a { EndBy end_of_a a.now }
    requires end_of_b { EndBy end_of_b b.now }
    ensures { result ≡ share_a_block (blocks_in a.now) (blocks_in b.now) }
{
    if begin_behind(b, end_of_a) {
        return false;
    }
    if begin_behind(a, end_of_b) {
        return false;
    }
    share(a, b)
}

/// A block is written by one command, and read or written by the other.
pub fn overlaps(a: &Footprint, b: &Footprint) -> bool
    ensures computed { result ≡ overlap a.now b.now }
    ensures in_sets { IsTrue result ↔ TouchesBoth a.now b.now }
{
    let written = (a.writes & (b.reads | b.writes)) | (a.reads & b.writes);
    let shared = share_by(a.extents.as_slice(), a.end, b.extents.as_slice(), b.end);
    written & shared
}
