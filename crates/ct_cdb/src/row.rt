//! Rows of the table of CDB forms, and the fields of which they speak. A byte that is missing reads as 0.

ghost use Rattle.std.specs.Prelude.{◌≡◌, ◌≤◌, ◌<◌, ◌^◌, slice_index};
ghost use Rattle.ct_word.specs.Fields.{number_at};
ghost use Rattle.ct_cdb.specs.Fields.{field, is_unprotected, protect_field, byte_check, count_field, control_field};
ghost use Rattle.ct_cdb.specs.Fields.{bit_at, lba_21, lba_32, lba_64, count_6, count_10, count_12, count_16};

use crate::few::Few;
use crate::op::Op;
use ct_word::limit::MOST_TRANSFER;

/// A field that a form may refuse: its first byte, and whether its value is accepted.
#[derive(Clone, Copy, Debug, PartialEq, Eq)]
pub struct Field {
    pub byte: u8,
    pub accepted: bool,
}

/// What a row of the table makes of the bytes: how many they have to be, the fields that may be refused beside CONTROL,
/// from the lowest up, and what is asked for where none is.
#[derive(Debug, Drop)]
pub struct Row {
    pub size: u8,
    pub refusable: Few<Field>,
    pub op: Op,
}

pub(crate) fn byte_at(bytes: &[u8], at: usize) -> u8
    ensures { result ≡ slice_index bytes.now at }
{
    match bytes.get(at) {
        Some(byte) => *byte,
        None => 0,
    }
}

/// The number in two bytes.
pub(crate) fn two_at(bytes: &[u8], at: usize) -> u16
    requires { at < 1024 }
    ensures { result ≡ number_at 2 at bytes.now }
{
    u16::from(byte_at(bytes, at)) * 256 + u16::from(byte_at(bytes, at + 1))
}

/// The number in four bytes.
pub(crate) fn four_at(bytes: &[u8], at: usize) -> u32
    requires { at < 512 }
    ensures { result ≡ number_at 4 at bytes.now }
{
    u32::from(two_at(bytes, at)) * 65_536 + u32::from(two_at(bytes, at + 2))
}

/// The number in eight bytes.
pub(crate) fn eight_at(bytes: &[u8], at: usize) -> u64
    requires { at < 256 }
    ensures { result ≡ number_at 8 at bytes.now }
{
    u64::from(four_at(bytes, at)) * 4_294_967_296 + u64::from(four_at(bytes, at + 4))
}

/// Whether the bit of this weight is set.
pub(crate) fn bit_at(byte: usize, weight: u8, bytes: &[u8]) -> bool
    requires { 0 < weight }
    ensures { result ≡ bit_at byte weight bytes.now }
{
    byte_at(bytes, byte) / weight % 2 == 1
}

/// A field by its first byte.
pub(crate) fn field_at(byte: u8, accepted: bool) -> Field
    ensures { result ≡ field byte accepted }
{
    Field { byte, accepted }
}

pub(crate) fn is_unprotected(bytes: &[u8]) -> bool
    ensures { result ≡ is_unprotected bytes.now }
{
    byte_at(bytes, 1) / 32 == 0
}

/// Bits 7-5 of byte 1.
pub(crate) fn protect_field(bytes: &[u8]) -> Field
    ensures { result ≡ protect_field bytes.now }
{
    field_at(1, is_unprotected(bytes))
}

/// BYTCHK
pub(crate) fn byte_check(bytes: &[u8]) -> u8
    ensures { result ≡ byte_check bytes.now }
{
    byte_at(bytes, 1) / 2 % 4
}

/// A number of blocks, in the field that begins at `byte`.
pub(crate) fn count_field(byte: u8, count: u32) -> Field
    ensures { result ≡ count_field byte count }
{
    field_at(byte, count <= MOST_TRANSFER)
}

/// CONTROL, the last of so many bytes.
pub(crate) fn control_field(size: u8, bytes: &[u8]) -> Field
    requires { 0 < size }
    ensures { result ≡ control_field size bytes.now }
{
    let byte = size - 1;
    field_at(byte, byte_at(bytes, usize::from(byte)) / 4 % 2 == 0)
}

/// The LBA and the number of blocks of a form of six bytes.
pub(crate) fn blocks_6(bytes: &[u8]) -> (u64, u32)
    ensures lba { result.0 ≡ lba_21 bytes.now }
    ensures count { result.1 ≡ count_6 bytes.now }
{
    let lba = u32::from(byte_at(bytes, 1) % 32) * 65_536 + u32::from(two_at(bytes, 2));
    let count = match byte_at(bytes, 4) {
        0 => 256,
        count => u32::from(count),
    };
    (u64::from(lba), count)
}

/// The same of a form of ten bytes.
pub(crate) fn blocks_10(bytes: &[u8]) -> (u64, u32)
    ensures lba { result.0 ≡ lba_32 bytes.now }
    ensures count { result.1 ≡ count_10 bytes.now }
{
    (u64::from(four_at(bytes, 2)), u32::from(two_at(bytes, 7)))
}

/// The same of a form of twelve bytes.
pub(crate) fn blocks_12(bytes: &[u8]) -> (u64, u32)
    ensures lba { result.0 ≡ lba_32 bytes.now }
    ensures count { result.1 ≡ count_12 bytes.now }
{
    (u64::from(four_at(bytes, 2)), four_at(bytes, 6))
}

/// The same of a form of sixteen bytes.
pub(crate) fn blocks_16(bytes: &[u8]) -> (u64, u32)
    ensures lba { result.0 ≡ lba_64 bytes.now }
    ensures count { result.1 ≡ count_16 bytes.now }
{
    (eight_at(bytes, 2), four_at(bytes, 10))
}
