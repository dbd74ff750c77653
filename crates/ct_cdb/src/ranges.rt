ghost use Rattle.std.specs.Prelude.{◌≡◌, ◌<◌, ◌≤◌, ◌+◌, ◌*◌, ◌^◌, [], ◌∷◌, ◌++◌, map, length, slice_get, true};
ghost use Rattle.std.specs.List.{list_all};
ghost use Rattle.ct_cdb.specs.Commands.Blocks.{range_of};
ghost use Rattle.ct_cdb.specs.Ranges.{total, numbers_of, is_inside};

use ct_param::{UnmapDescriptor, UnmapList};
use ct_word::limit::{MOST_BLOCKS, MOST_RANGES};
use std::marker::Model;

/// A range of blocks, from an LBA on.
#[derive(Clone, Copy, Debug, PartialEq, Eq)]
pub struct LbaRange {
    pub lba: u64,
    pub count: u32,
}

/// The ranges of blocks that a command names, in order, at most 64, of fixed size. Contracts see a list.
#[derive(Debug, Drop)]
pub struct Ranges {
    ranges: [LbaRange; MOST_RANGES],
    count: usize,
}

impl Model for Ranges {
    ghost use Rattle.std.specs.Prelude.{◌≡◌, ◌≤◌, List, length, take};
    ghost use Rattle.ct_cdb.specs.declared.ranges.LbaRange.{LbaRange};

    ghost Value = { List LbaRange };

    ghost view = { λ r. take r.count r.ranges };

    ghost invariant = { λ r. (r.count ≤ 64) × (length r.ranges ≡ 64) };
}

impl Ranges {
    pub fn none() -> Ranges
        ensures { result ≡ [] }
    {
        Ranges {
            ranges: [LbaRange { lba: 0, count: 0 }; MOST_RANGES],
            count: 0,
        }
    }

    pub fn one(lba: u64, count: u32) -> Ranges
        ensures { result ≡ record { lba = lba; count = count } ∷ [] }
    {
        let mut ranges = Ranges::none();
        ranges.push(LbaRange { lba, count });
        ranges
    }

    /// The ranges of an UNMAP's block descriptors.
    pub(crate) fn of_list(list: &UnmapList) -> Ranges
        ensures { result ≡ map range_of list.now }
    {
        let mut ranges = Ranges::none();
        ranges.push_all(list.as_slice());
        ranges
    }

    fn push_all(&mut self, descriptors: &[UnmapDescriptor])
        requires { length self.old + length descriptors.now ≤ 64 }
        ensures { self.new ≡ self.old ++ map range_of descriptors.now }
    {
        if let [first, others @ ..] = descriptors {
            self.push(range_of(*first));
            self.push_all(others);
        }
    }

    fn push(&mut self, range: LbaRange)
        requires { length self.old < 64 }
        ensures { self.new ≡ self.old ++ range ∷ [] }
    {
        self.ranges[self.count] = range;
        self.count += 1;
    }

    /// The ranges, in order.
    pub fn as_slice(&self) -> &[LbaRange]
        ensures ranges { result.now ≡ self.now }
        ensures few { length result.now ≤ MOST_RANGES }
    {
        &self.ranges[..self.count]
    }

    /// How many blocks there are.
    pub fn total(&self) -> u64
        ensures total { result ≡ total self.now }
        ensures small { result < 2 ^ 38 }
        ensures few { length self.now ≤ MOST_RANGES }
    {
        total(self.as_slice())
    }

    /// Every range is inside a disk of so many blocks, an empty one too.
    pub fn are_inside(&self, blocks: u32) -> bool
        ensures { result ≡ list_all (is_inside blocks) self.now }
    {
        self.as_slice()
            .iter()
            .all(|range| is_inside(*range, blocks))
    }

    /// The LBA of a block by its place in all of the ranges, from 0.
    pub fn lba_at(&self, place: u32) -> u32
        requires within { place < total self.now }
        requires inside { list_all (is_inside MOST_BLOCKS) self.now ≡ true }
        ensures { slice_get (numbers_of self.now) place ≡ Some result }
    {
        lba_at(self.as_slice(), place)
    }
}

fn range_of(descriptor: UnmapDescriptor) -> LbaRange
    ensures { result ≡ range_of descriptor }
{
    LbaRange {
        lba: descriptor.lba,
        count: descriptor.count,
    }
}

fn count_of(range: LbaRange) -> u64
    ensures count { result ≡ range.count }
    ensures small { result < 2 ^ 32 }
{
    u64::from(range.count)
}

fn total(ranges: &[LbaRange]) -> u64
    requires { length ranges.now ≤ 64 }
    ensures total { result ≡ total ranges.now }
    ensures small { result ≤ length ranges.now * (4294967295) }
{
    match ranges {
        [] => 0,
        [first, others @ ..] => count_of(*first) + total(others),
    }
}

// The LBA of a block by its place in these ranges.
fn lba_at(ranges: &[LbaRange], place: u32) -> u32
    requires within { place < total ranges.now }
    requires inside { list_all (is_inside MOST_BLOCKS) ranges.now ≡ true }
    ensures { slice_get (numbers_of ranges.now) place ≡ Some result }
{
    match ranges {
        [] => unreachable!(),
        [first, others @ ..] => {
            if place < first.count {
                let lba = first.lba + u64::from(place);
                lba as u32
            } else {
                lba_at(others, place - first.count)
            }
        }
    }
}

fn is_inside(range: LbaRange, blocks: u32) -> bool
    ensures { result ≡ is_inside blocks range }
{
    match range.lba.checked_add(u64::from(range.count)) {
        Some(end) => end <= u64::from(blocks),
        None => false,
    }
}

#[cfg(test)]
mod tests {
    use super::*;

    #[test]
    fn names_no_block(rt: HostRuntime) {
        let none = Ranges::none();
        assert!(rt; none.as_slice().is_empty() && none.are_inside(0));
        assert_eq!(rt; none.total(), 0);
    }

    #[test]
    fn names_the_blocks_of_a_range(rt: HostRuntime) {
        let one = Ranges::one(3, 2);
        assert_eq!(rt; one.as_slice(), [LbaRange { lba: 3, count: 2 }].as_slice());
        assert_eq!(rt; one.total(), 2);
        assert_eq!(rt; (one.lba_at(0), one.lba_at(1)), (3, 4));
    }

    #[test]
    fn finds_what_leaves_the_disk(rt: HostRuntime) {
        // ranges that end at the disk's last block, or one behind it, and ranges whose end has more than 64 bits
        let cases = [
            (3, 2, 5, true),
            (3, 2, 4, false),
            (5, 0, 5, true),
            (5, 0, 4, false),
            (0xffff_ffff, 0, u32::MAX, true),
            (0xffff_ffff, 1, u32::MAX, false),
            (u64::MAX, 0, u32::MAX, false),
            (u64::MAX, 1, u32::MAX, false),
            (u64::MAX, u32::MAX, u32::MAX, false),
        ];
        for (lba, count, blocks, inside) in cases {
            let range = Ranges::one(lba, count);
            assert_eq!(rt;
                range.are_inside(blocks),
                inside,
                "{count} from {lba} of {blocks}"
            );
        }
    }
}
