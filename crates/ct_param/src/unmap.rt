//! The parameter list of UNMAP (SBC-3, UNMAP).

ghost use Rattle.std.specs.Prelude.{◌≡◌, ◌<◌, ◌≤◌, ◌+◌, ◌*◌, [], ◌∷◌, ◌++◌, length};
ghost use Rattle.std.specs.List.{list_all};
ghost use Rattle.ct_param.specs.UnmapLists.{descriptor_at, descriptors, whole_descriptors, is_inside, is_apart};
ghost use Rattle.ct_param.specs.UnmapLists.{are_apart, ends_before, are_in_order, unmap_list_of};

use crate::fault::ListFault;
use ct_word::limit::MOST_RANGES;
use ct_word::{u16_at, u32_at, u64_at};
use std::marker::Model;

/// Bytes of the header.
const HEADER: usize = 8;

/// Bytes of a block descriptor.
const DESCRIPTOR: usize = 16;

/// Bytes behind UNMAP DATA LENGTH and before the first descriptor.
const REST_OF_HEADER: usize = 6;

/// A block descriptor: a range of blocks.
#[derive(Clone, Copy, Debug, PartialEq, Eq)]
pub struct UnmapDescriptor {
    /// UNMAP LOGICAL BLOCK ADDRESS
    pub lba: u64,
    /// NUMBER OF LOGICAL BLOCKS
    pub count: u32,
}

/// The block descriptors of a parameter list, at most 64, of fixed size. Contracts see a list.
#[derive(Debug, Drop)]
pub struct UnmapList {
    descriptors: [UnmapDescriptor; MOST_RANGES],
    count: usize,
}

impl Model for UnmapList {
    ghost use Rattle.std.specs.Prelude.{◌≡◌, ◌≤◌, List, length, take};
    ghost use Rattle.ct_param.specs.declared.unmap.UnmapDescriptor.{UnmapDescriptor};

    ghost Value = { List UnmapDescriptor };

    ghost view = { λ l. take l.count l.descriptors };

    ghost invariant = { λ l. (l.count ≤ 64) × (length l.descriptors ≡ 64) };
}

/// Reads the parameter list of an UNMAP, for a disk of so many blocks. BadLength where it has fewer than 8 bytes, but
/// more than none; then BadField where the header names more than 1,024 bytes of descriptors, or its data length isn't
/// theirs and 6; then OutOfRange where a descriptor leaves the disk; then BadField where two descriptors share a block.
#[tactic(auto, unfolding(crate::specs::UnmapLists::unmap_list_of))]
pub fn read_unmap(bytes: &[u8], blocks: u32) -> Result<UnmapList, ListFault>
    ensures { result ≡ unmap_list_of blocks bytes.now }
{
    if bytes.is_empty() {
        return Ok(UnmapList::none());
    }
    if bytes.len() < HEADER {
        return Err(ListFault::BadLength);
    }
    let (data, descriptors) = (usize::from(u16_at(bytes, 0)), usize::from(u16_at(bytes, 2)));
    if descriptors > DESCRIPTOR * MOST_RANGES || data != descriptors + REST_OF_HEADER {
        return Err(ListFault::BadField);
    }
    let list = read_descriptors(bytes, whole_descriptors(bytes));
    if !are_inside(list.as_slice(), blocks) {
        return Err(ListFault::OutOfRange);
    }
    if !are_apart(list.as_slice()) {
        return Err(ListFault::BadField);
    }
    Ok(list)
}

fn whole_descriptors(bytes: &[u8]) -> usize
    requires { 8 ≤ length bytes.now }
    ensures { result ≡ whole_descriptors bytes.now }
{
    usize::from(u16_at(bytes, 2)).min(bytes.len() - HEADER) / DESCRIPTOR
}

fn read_descriptors(bytes: &[u8], count: usize) -> UnmapList
    requires few { count ≤ 64 }
    requires whole { 8 + 16 * count ≤ length bytes.now }
    ensures { result ≡ descriptors count bytes.now }
{
    let mut list = UnmapList::none();
    for place in 0..count {
        list.push(descriptor_at(bytes, HEADER + DESCRIPTOR * place));
    }
    list
}

fn descriptor_at(bytes: &[u8], at: usize) -> UnmapDescriptor
    requires { at + 16 ≤ length bytes.now }
    ensures { result ≡ descriptor_at at bytes.now }
{
    UnmapDescriptor {
        lba: u64_at(bytes, at),
        count: u32_at(bytes, at + 8),
    }
}

fn are_inside(list: &[UnmapDescriptor], blocks: u32) -> bool
    ensures { result ≡ list_all (is_inside blocks) list.now }
{
    list.iter().all(|descriptor| is_inside(*descriptor, blocks))
}

fn is_inside(descriptor: UnmapDescriptor, blocks: u32) -> bool
    ensures { result ≡ is_inside blocks descriptor }
{
    match descriptor.lba.checked_add(u64::from(descriptor.count)) {
        Some(end) => end <= u64::from(blocks),
        None => false,
    }
}

// Pairs are compared only where the descriptors aren't in order.
#[tactic(auto, using(crate::proofs::InOrder::in_order_apart))]
fn are_apart(list: &[UnmapDescriptor]) -> bool
    ensures { result ≡ are_apart list.now }
{
    are_in_order(list) || is_each_apart(list)
}

fn are_in_order(list: &[UnmapDescriptor]) -> bool
    ensures { result ≡ are_in_order list.now }
{
    match list {
        [] => true,
        [first, others @ ..] => match others {
            [] => true,
            [second, ..] => ends_before(*first, *second) && are_in_order(others),
        },
    }
}

fn ends_before(a: UnmapDescriptor, b: UnmapDescriptor) -> bool
    ensures { result ≡ ends_before a b }
{
    a.lba <= b.lba && u64::from(a.count) <= b.lba - a.lba
}

fn is_each_apart(list: &[UnmapDescriptor]) -> bool
    ensures { result ≡ are_apart list.now }
{
    match list {
        [] => true,
        [first, others @ ..] => is_apart_from_all(*first, others) && is_each_apart(others),
    }
}

fn is_apart_from_all(descriptor: UnmapDescriptor, others: &[UnmapDescriptor]) -> bool
    ensures { result ≡ list_all (is_apart descriptor) others.now }
{
    others.iter().all(|other| is_apart(descriptor, *other))
}

fn is_apart(a: UnmapDescriptor, b: UnmapDescriptor) -> bool
    ensures { result ≡ is_apart a b }
{
    if a.lba <= b.lba {
        b.count == 0 || u64::from(a.count) <= b.lba - a.lba
    } else {
        a.count == 0 || u64::from(b.count) <= a.lba - b.lba
    }
}

impl UnmapList {
    /// No descriptors.
    pub fn none() -> UnmapList
        ensures { result ≡ [] }
    {
        UnmapList {
            descriptors: [UnmapDescriptor { lba: 0, count: 0 }; MOST_RANGES],
            count: 0,
        }
    }

    /// The descriptors, in order.
    pub fn as_slice(&self) -> &[UnmapDescriptor]
        ensures descriptors { result.now ≡ self.now }
        ensures few { length result.now ≤ MOST_RANGES }
    {
        &self.descriptors[..self.count]
    }

    fn push(&mut self, descriptor: UnmapDescriptor)
        requires { length self.old < 64 }
        ensures { self.new ≡ self.old ++ descriptor ∷ [] }
    {
        self.descriptors[self.count] = descriptor;
        self.count += 1;
    }
}
