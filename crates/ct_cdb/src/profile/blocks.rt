//! Rows of the commands that move blocks, or have them moved (SBC-3, clause 5).

ghost use Rattle.std.specs.Prelude.{◌≡◌};
ghost use Rattle.ct_cdb.specs.Commands.Blocks.{data_of, reading, writing, read, write, write_and_verify, verify};
ghost use Rattle.ct_cdb.specs.Commands.Blocks.{compare_and_write, write_same, unmapped, unmap, synchronize_cache};

use super::{Class, Phase, Profile, still};
use crate::few::Few;
use crate::op::SerIdx;
use crate::ranges::Ranges;
use ct_param::read_unmap;
use ct_word::limit::BLOCK_SIZE;

// A command that reads blocks of one range.
fn reading(lba: u64, count: u32) -> Profile
    ensures { result ≡ reading lba count }
{
    Profile {
        needs_started: true,
        ranges: Ranges::one(lba, count),
        ..still(SerIdx::Rd, Class::Reading)
    }
}

// A command that writes blocks of one range.
fn writing(lba: u64, count: u32) -> Profile
    ensures { result ≡ writing lba count }
{
    Profile {
        needs_started: true,
        is_write: true,
        ranges: Ranges::one(lba, count),
        ..still(SerIdx::Wr, Class::Writing)
    }
}

// The bytes of so many blocks.
fn data_of(count: u32) -> u64
    ensures { result ≡ data_of count }
{
    BLOCK_SIZE as u64 * u64::from(count)
}

/// READ
pub(super) fn read(lba: u64, count: u32) -> Profile
    ensures { result ≡ read lba count }
{
    Profile {
        data_in: data_of(count),
        need: u64::from(count),
        phases: Few::one(Phase::Get),
        ..reading(lba, count)
    }
}

/// WRITE
pub(super) fn write(lba: u64, count: u32) -> Profile
    ensures { result ≡ write lba count }
{
    Profile {
        data_out: data_of(count),
        need: u64::from(count),
        phases: Few::one(Phase::Put),
        ..writing(lba, count)
    }
}

/// WRITE AND VERIFY
pub(super) fn write_and_verify(lba: u64, count: u32) -> Profile
    ensures { result ≡ write_and_verify lba count }
{
    Profile {
        data_out: data_of(count),
        need: u64::from(count),
        phases: Few::two(Phase::Put, Phase::Look),
        ..writing(lba, count)
    }
}

/// VERIFY
pub(super) fn verify(compare: bool, lba: u64, count: u32) -> Profile
    ensures { result ≡ verify compare lba count }
{
    if compare {
        Profile {
            data_out: data_of(count),
            need: u64::from(count) + 1,
            phases: Few::one(Phase::Compare),
            ..reading(lba, count)
        }
    } else {
        Profile {
            need: 1,
            phases: Few::one(Phase::Look),
            ..reading(lba, count)
        }
    }
}

/// COMPARE AND WRITE
pub(super) fn compare_and_write(lba: u64, count: u32) -> Profile
    ensures { result ≡ compare_and_write lba count }
{
    Profile {
        data_out: 2 * data_of(count),
        need: 2 * u64::from(count) + 1,
        phases: Few::two(Phase::Compare, Phase::PutSecondHalf),
        ..writing(lba, count)
    }
}

/// WRITE SAME
pub(super) fn write_same(lba: u64, count: u32) -> Profile
    ensures { result ≡ write_same lba count }
{
    Profile {
        data_out: data_of(1),
        need: 2,
        phases: Few::one(Phase::PutSame),
        ..writing(lba, count)
    }
}

/// UNMAP
pub(super) fn unmap(list: u16, out: &[u8], blocks: u32) -> Profile
    ensures { result ≡ unmap list out.now blocks }
{
    Profile {
        needs_started: true,
        is_write: true,
        data_out: u64::from(list),
        need: 1,
        ranges: unmapped(list, out, blocks),
        phases: Few::one(Phase::Zero),
        ..still(SerIdx::Un, Class::Writing)
    }
}

// The block descriptors of the list in so many bytes of the data-out.
fn unmapped(list: u16, out: &[u8], blocks: u32) -> Ranges
    ensures { result ≡ unmapped list out.now blocks }
{
    match read_unmap(&out[..out.len().min(usize::from(list))], blocks) {
        Ok(descriptors) => Ranges::of_list(&descriptors),
        Err(_) => Ranges::none(),
    }
}

/// SYNCHRONIZE CACHE
pub(super) fn synchronize_cache(lba: u64, count: u32) -> Profile
    ensures { result ≡ synchronize_cache lba count }
{
    Profile {
        needs_started: true,
        ranges: Ranges::one(lba, count),
        ..still(SerIdx::Sy, Class::Writing)
    }
}
