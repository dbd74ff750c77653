//! Rows of the commands that move blocks (SBC-3, clause 5).

ghost use Rattle.std.specs.Prelude.{◌≡◌};
ghost use Rattle.ct_cdb.specs.Rows.Blocks.{six, long, read_6, read_10, read_12, read_16, write_6, write_10, write_12};
ghost use Rattle.ct_cdb.specs.Rows.Blocks.{write_16, write_check_field, write_and_verify_10, write_and_verify_16};
ghost use Rattle.ct_cdb.specs.Rows.Blocks.{verify_check_field, verify_10, verify_12, verify_16, compare_and_write};
ghost use Rattle.ct_cdb.specs.Rows.Blocks.{write_same_field, some_count_field, write_same_10, write_same_16, unmap};
ghost use Rattle.ct_cdb.specs.Rows.Blocks.{synchronize_cache_10, synchronize_cache_16};

use crate::few::Few;
use crate::op::{Form, Op};
use crate::row::{
    Field, Row, bit_at, blocks_6, blocks_10, blocks_12, blocks_16, byte_at, byte_check,
    count_field, eight_at, field_at, is_unprotected, protect_field, two_at,
};
use ct_word::limit::{MOST_COMPARE, MOST_TRANSFER};

// A form of six bytes.
fn six(op: Op) -> Row
    ensures { result ≡ six op }
{
    Row {
        size: 6,
        refusable: Few::none(),
        op,
    }
}

// A longer form, with a field in byte 1 and a number of blocks.
fn long(size: u8, first: Field, count: Field, op: Op) -> Row
    ensures { result ≡ long size first count op }
{
    Row {
        size,
        refusable: Few::two(first, count),
        op,
    }
}

/// READ (6)
pub(crate) fn read_6(bytes: &[u8]) -> Row
    ensures { result ≡ read_6 bytes.now }
{
    let (lba, count) = blocks_6(bytes);
    let form = Form::Six;
    six(Op::Read { form, lba, count })
}

/// READ (10)
pub(crate) fn read_10(bytes: &[u8]) -> Row
    ensures { result ≡ read_10 bytes.now }
{
    let (lba, count) = blocks_10(bytes);
    let form = Form::Ten;
    let op = Op::Read { form, lba, count };
    long(10, protect_field(bytes), count_field(7, count), op)
}

/// READ (12)
pub(crate) fn read_12(bytes: &[u8]) -> Row
    ensures { result ≡ read_12 bytes.now }
{
    let (lba, count) = blocks_12(bytes);
    let form = Form::Twelve;
    let op = Op::Read { form, lba, count };
    long(12, protect_field(bytes), count_field(6, count), op)
}

/// READ (16)
pub(crate) fn read_16(bytes: &[u8]) -> Row
    ensures { result ≡ read_16 bytes.now }
{
    let (lba, count) = blocks_16(bytes);
    let form = Form::Sixteen;
    let op = Op::Read { form, lba, count };
    long(16, protect_field(bytes), count_field(10, count), op)
}

/// WRITE (6)
pub(crate) fn write_6(bytes: &[u8]) -> Row
    ensures { result ≡ write_6 bytes.now }
{
    let (lba, count) = blocks_6(bytes);
    let form = Form::Six;
    six(Op::Write { form, lba, count })
}

/// WRITE (10)
pub(crate) fn write_10(bytes: &[u8]) -> Row
    ensures { result ≡ write_10 bytes.now }
{
    let (lba, count) = blocks_10(bytes);
    let form = Form::Ten;
    let op = Op::Write { form, lba, count };
    long(10, protect_field(bytes), count_field(7, count), op)
}

/// WRITE (12)
pub(crate) fn write_12(bytes: &[u8]) -> Row
    ensures { result ≡ write_12 bytes.now }
{
    let (lba, count) = blocks_12(bytes);
    let form = Form::Twelve;
    let op = Op::Write { form, lba, count };
    long(12, protect_field(bytes), count_field(6, count), op)
}

/// WRITE (16)
pub(crate) fn write_16(bytes: &[u8]) -> Row
    ensures { result ≡ write_16 bytes.now }
{
    let (lba, count) = blocks_16(bytes);
    let form = Form::Sixteen;
    let op = Op::Write { form, lba, count };
    long(16, protect_field(bytes), count_field(10, count), op)
}

// Byte 1 of WRITE AND VERIFY.
fn write_check_field(bytes: &[u8]) -> Field
    ensures { result ≡ write_check_field bytes.now }
{
    field_at(1, is_unprotected(bytes) && byte_check(bytes) == 0)
}

/// WRITE AND VERIFY (10)
pub(crate) fn write_and_verify_10(bytes: &[u8]) -> Row
    ensures { result ≡ write_and_verify_10 bytes.now }
{
    let (lba, count) = blocks_10(bytes);
    let form = Form::Ten;
    let op = Op::WriteAndVerify { form, lba, count };
    long(10, write_check_field(bytes), count_field(7, count), op)
}

/// WRITE AND VERIFY (16)
pub(crate) fn write_and_verify_16(bytes: &[u8]) -> Row
    ensures { result ≡ write_and_verify_16 bytes.now }
{
    let (lba, count) = blocks_16(bytes);
    let form = Form::Sixteen;
    let op = Op::WriteAndVerify { form, lba, count };
    long(16, write_check_field(bytes), count_field(10, count), op)
}

// Byte 1 of VERIFY.
fn verify_check_field(bytes: &[u8]) -> Field
    ensures { result ≡ verify_check_field bytes.now }
{
    field_at(1, is_unprotected(bytes) && byte_check(bytes) <= 1)
}

/// VERIFY (10)
pub(crate) fn verify_10(bytes: &[u8]) -> Row
    ensures { result ≡ verify_10 bytes.now }
{
    let (lba, count) = blocks_10(bytes);
    let op = Op::Verify {
        form: Form::Ten,
        compare: bit_at(1, 2, bytes),
        lba,
        count,
    };
    long(10, verify_check_field(bytes), count_field(7, count), op)
}

/// VERIFY (12)
pub(crate) fn verify_12(bytes: &[u8]) -> Row
    ensures { result ≡ verify_12 bytes.now }
{
    let (lba, count) = blocks_12(bytes);
    let op = Op::Verify {
        form: Form::Twelve,
        compare: bit_at(1, 2, bytes),
        lba,
        count,
    };
    long(12, verify_check_field(bytes), count_field(6, count), op)
}

/// VERIFY (16)
pub(crate) fn verify_16(bytes: &[u8]) -> Row
    ensures { result ≡ verify_16 bytes.now }
{
    let (lba, count) = blocks_16(bytes);
    let op = Op::Verify {
        form: Form::Sixteen,
        compare: bit_at(1, 2, bytes),
        lba,
        count,
    };
    long(16, verify_check_field(bytes), count_field(10, count), op)
}

/// COMPARE AND WRITE
pub(crate) fn compare_and_write(bytes: &[u8]) -> Row
    ensures { result ≡ compare_and_write bytes.now }
{
    let (lba, count) = (eight_at(bytes, 2), u32::from(byte_at(bytes, 13)));
    let op = Op::CompareAndWrite { lba, count };
    long(
        16,
        protect_field(bytes),
        field_at(13, count <= MOST_COMPARE),
        op,
    )
}

// Byte 1 of WRITE SAME: WRPROTECT, ANCHOR, PBDATA and LBDATA are 0.
fn write_same_field(bytes: &[u8]) -> Field
    ensures { result ≡ write_same_field bytes.now }
{
    let flags = byte_at(bytes, 1);
    field_at(1, flags / 16 == 0 && flags % 8 == 0)
}

// A number of blocks that isn't 0.
fn some_count_field(byte: u8, count: u32) -> Field
    ensures { result ≡ some_count_field byte count }
{
    field_at(byte, 1 <= count && count <= MOST_TRANSFER)
}

/// WRITE SAME (10)
pub(crate) fn write_same_10(bytes: &[u8]) -> Row
    ensures { result ≡ write_same_10 bytes.now }
{
    let (lba, count) = blocks_10(bytes);
    let op = Op::WriteSame {
        form: Form::Ten,
        unmap: false,
        lba,
        count,
    };
    long(10, write_same_field(bytes), some_count_field(7, count), op)
}

/// WRITE SAME (16)
pub(crate) fn write_same_16(bytes: &[u8]) -> Row
    ensures { result ≡ write_same_16 bytes.now }
{
    let (lba, count) = blocks_16(bytes);
    let op = Op::WriteSame {
        form: Form::Sixteen,
        unmap: bit_at(1, 8, bytes),
        lba,
        count,
    };
    long(16, write_same_field(bytes), some_count_field(10, count), op)
}

/// UNMAP
pub(crate) fn unmap(bytes: &[u8]) -> Row
    ensures { result ≡ unmap bytes.now }
{
    Row {
        size: 10,
        refusable: Few::one(field_at(1, byte_at(bytes, 1) % 2 == 0)),
        op: Op::Unmap {
            list: two_at(bytes, 7),
        },
    }
}

/// SYNCHRONIZE CACHE (10)
pub(crate) fn synchronize_cache_10(bytes: &[u8]) -> Row
    ensures { result ≡ synchronize_cache_10 bytes.now }
{
    let (lba, count) = blocks_10(bytes);
    let form = Form::Ten;
    Row {
        size: 10,
        refusable: Few::none(),
        op: Op::SynchronizeCache { form, lba, count },
    }
}

/// SYNCHRONIZE CACHE (16)
pub(crate) fn synchronize_cache_16(bytes: &[u8]) -> Row
    ensures { result ≡ synchronize_cache_16 bytes.now }
{
    let (lba, count) = blocks_16(bytes);
    let form = Form::Sixteen;
    Row {
        size: 16,
        refusable: Few::none(),
        op: Op::SynchronizeCache { form, lba, count },
    }
}
