//! From a CDB to its bytes. Each shape of form is one function.

ghost use Rattle.std.specs.Prelude.{◌≡◌, ◌≤◌, ◌<◌, ◌^◌, ◌++◌, length, take, drop, slice_index};
ghost use Rattle.ct_cdb.specs.Forms.{cdb_of};
ghost use Rattle.ct_cdb.specs.Encoding.{IsEncodable, IsInPlace, IsTransfer, IsLba, IsCached, IsLength, IsWritten};
ghost use Rattle.ct_cdb.specs.Encoding.{bytes_of_cdb, bytes_of_op, bit, code_of, blocks_form, ten_form, mode_form};
ghost use Rattle.ct_cdb.specs.Encoding.{report_luns_form, read_capacity_form, reserve_out_form};

use crate::op::{Cdb, Form, Op};

/// Writes the bytes of a CDB, whose number is returned. The bytes behind them stay.
pub fn encode(cdb: &Cdb, into: &mut [u8; 16]) -> usize
    requires { IsEncodable cdb.now }
    ensures size { result ≡ length (bytes_of_cdb cdb.now) }
    ensures form { take result into.new ≡ bytes_of_cdb cdb.now }
    ensures reads_back { cdb_of (take result into.new) ≡ Ok cdb.now }
    ensures rest { drop result into.new ≡ drop result into.old }
{
    put(&cdb.op, cdb.control, into)
}

fn put(op: &Op, control: u8, into: &mut [u8; 16]) -> usize
    requires { IsInPlace op.now }
    ensures { IsWritten (bytes_of_op op.now control) result into.old into.new }
{
    match *op {
        Op::TestUnitReady => put_form(&[0x00, 0, 0, 0, 0, control], into),
        Op::RequestSense {
            descriptor,
            allocation,
        } => put_form(&[0x03, bit(descriptor, 1), 0, 0, allocation, control], into),
        Op::Inquiry { page, allocation } => {
            let [high, low] = allocation.to_be_bytes();
            let form = [
                0x12,
                bit(page.is_vital(), 1),
                page.code(),
                high,
                low,
                control,
            ];
            put_form(&form, into)
        }
        Op::ReportLuns { select, allocation } => {
            put_form(&report_luns_form(select.code(), allocation, control), into)
        }
        Op::ReadCapacity10 => put_form(&ten_form(0x25, [0, 0, 0], 0, control), into),
        Op::ReadCapacity16 { allocation } => put_form(
            &read_capacity_form(allocation, control),
            into,
        ),
        Op::Read { form, lba, count } => {
            let code = code_of(form, 0x08, 0x28, 0xa8, 0x88);
            put_transfer(form, code, 0, lba, count, control, into)
        }
        Op::Write { form, lba, count } => {
            let code = code_of(form, 0x0a, 0x2a, 0xaa, 0x8a);
            put_transfer(form, code, 0, lba, count, control, into)
        }
        Op::WriteAndVerify { form, lba, count } => {
            let code = code_of(form, 0, 0x2e, 0, 0x8e);
            put_transfer(form, code, 0, lba, count, control, into)
        }
        Op::Verify {
            form,
            compare,
            lba,
            count,
        } => {
            let code = code_of(form, 0, 0x2f, 0xaf, 0x8f);
            put_transfer(form, code, bit(compare, 2), lba, count, control, into)
        }
        Op::CompareAndWrite { lba, count } => put_16(0x89, 0, lba, count, control, into),
        Op::WriteSame {
            form,
            unmap,
            lba,
            count,
        } => {
            let code = code_of(form, 0, 0x41, 0, 0x93);
            put_transfer(form, code, bit(unmap, 8), lba, count, control, into)
        }
        Op::Unmap { list } => put_form(&ten_form(0x42, [0, 0, 0], list, control), into),
        Op::SynchronizeCache { form, lba, count } => {
            put_synchronize_cache(form, lba, count, control, into)
        }
        Op::StartStopUnit { start } => put_form(&[0x1b, 0, 0, 0, bit(start, 1), control], into),
        Op::ModeSelect { form, list } => {
            put_mode(form, (0x15, 0x55), [0, 0, 0], list, control, into)
        }
        Op::ModeSense {
            form,
            no_descriptor,
            control: values,
            page,
            allocation,
        } => {
            let fields = [
                bit(no_descriptor, 8),
                values.code() * 64 + page.code(),
                page.subcode(),
            ];
            put_mode(form, (0x1a, 0x5a), fields, allocation, control, into)
        }
        Op::PersistentReserveIn { action, allocation } => {
            let form = ten_form(0x5e, [action.code(), 0, 0], allocation, control);
            put_form(&form, into)
        }
        Op::PersistentReserveOut { action, list } => {
            let form = reserve_out_form(action.code(), action.type_code(), list, control);
            put_form(&form, into)
        }
    }
}

// Writes bytes, and gives their number.
fn put_form(form: &[u8], into: &mut [u8; 16]) -> usize
    requires { length form.now ≤ 16 }
    ensures { IsWritten form.now result into.old into.new }
{
    into[..form.len()].copy_from_slice(form);
    form.len()
}

// A bit of this weight.
fn bit(set: bool, weight: u8) -> u8
    ensures { result ≡ bit set weight }
{
    if set { weight } else { 0 }
}

// The operation code of a form, 0 where the command has no such form.
fn code_of(form: Form, six: u8, ten: u8, twelve: u8, sixteen: u8) -> u8
    ensures { result ≡ code_of form six ten twelve sixteen }
{
    match form {
        Form::Six => six,
        Form::Ten => ten,
        Form::Twelve => twelve,
        Form::Sixteen => sixteen,
    }
}

// A form that moves blocks.
fn put_transfer(
    form: Form,
    code: u8,
    flags: u8,
    lba: u64,
    count: u32,
    control: u8,
    into: &mut [u8; 16],
) -> usize
    requires { IsTransfer form lba count }
    ensures { IsWritten (blocks_form form code flags lba count control) result into.old into.new }
{
    match form {
        Form::Six => put_6(code, lba, count, control, into),
        Form::Ten => put_10(code, flags, lba, count, control, into),
        Form::Twelve => put_12(code, flags, lba, count, control, into),
        Form::Sixteen => put_16(code, flags, lba, count, control, into),
    }
}

fn put_synchronize_cache(
    form: Form,
    lba: u64,
    count: u32,
    control: u8,
    into: &mut [u8; 16],
) -> usize
    requires lba { IsLba form lba }
    requires count { IsCached form count }
    ensures { IsWritten (blocks_form form (code_of form 0 0x35 0 0x91) 0 lba count control) result into.old into.new }
{
    match form {
        Form::Ten => put_10(0x35, 0, lba, count, control, into),
        Form::Sixteen => put_16(0x91, 0, lba, count, control, into),
        Form::Six | Form::Twelve => unreachable!(),
    }
}

fn put_6(code: u8, lba: u64, count: u32, control: u8, into: &mut [u8; 16]) -> usize
    requires { lba < 2 ^ 21 }
    ensures { IsWritten (blocks_form Form.Six code 0 lba count control) result into.old into.new }
{
    let [_, lba2, lba1, lba0] = (lba as u32).to_be_bytes();
    put_form(
        &[code, lba2, lba1, lba0, (count % 256) as u8, control],
        into,
    )
}

fn put_10(code: u8, flags: u8, lba: u64, count: u32, control: u8, into: &mut [u8; 16]) -> usize
    requires lba { lba < 2 ^ 32 }
    requires count { count < 2 ^ 16 }
    ensures { IsWritten (blocks_form Form.Ten code flags lba count control) result into.old into.new }
{
    let [lba3, lba2, lba1, lba0] = (lba as u32).to_be_bytes();
    let [count1, count0] = (count as u16).to_be_bytes();
    let form = [
        code, flags, lba3, lba2, lba1, lba0, 0, count1, count0, control,
    ];
    put_form(&form, into)
}

fn put_12(code: u8, flags: u8, lba: u64, count: u32, control: u8, into: &mut [u8; 16]) -> usize
    requires { lba < 2 ^ 32 }
    ensures { IsWritten (blocks_form Form.Twelve code flags lba count control) result into.old into.new }
{
    let [lba3, lba2, lba1, lba0] = (lba as u32).to_be_bytes();
    let [count3, count2, count1, count0] = count.to_be_bytes();
    let form = [
        code, flags, lba3, lba2, lba1, lba0, count3, count2, count1, count0, 0, control,
    ];
    put_form(&form, into)
}

fn put_16(code: u8, flags: u8, lba: u64, count: u32, control: u8, into: &mut [u8; 16]) -> usize
    ensures { IsWritten (blocks_form Form.Sixteen code flags lba count control) result into.old into.new }
{
    let [lba7, lba6, lba5, lba4, lba3, lba2, lba1, lba0] = lba.to_be_bytes();
    let [count3, count2, count1, count0] = count.to_be_bytes();
    let form = [
        code, flags, lba7, lba6, lba5, lba4, lba3, lba2, lba1, lba0, count3, count2, count1,
        count0, 0, control,
    ];
    put_form(&form, into)
}

// A form of ten bytes with bytes 1 to 3 and a length.
fn ten_form(code: u8, fields: [u8; 3], size: u16, control: u8) -> [u8; 10]
    ensures { result ≡ ten_form code (slice_index fields 0) (slice_index fields 1) (slice_index fields 2) size control }
{
    let [first, second, third] = fields;
    let [high, low] = size.to_be_bytes();
    [code, first, second, third, 0, 0, 0, high, low, control]
}

// MODE SELECT or MODE SENSE, with the codes of its two forms, bytes 1 to 3 and a length.
fn put_mode(
    form: Form,
    codes: (u8, u8),
    fields: [u8; 3],
    size: u16,
    control: u8,
    into: &mut [u8; 16],
) -> usize
    requires { IsLength form size }
    ensures { IsWritten (mode_form form codes.0 codes.1
        (slice_index fields 0) (slice_index fields 1) (slice_index fields 2) size control)
        result into.old into.new }
{
    let [first, second, third] = fields;
    match form {
        Form::Six => put_form(&[codes.0, first, second, third, size as u8, control], into),
        Form::Ten => put_form(&ten_form(codes.1, fields, size, control), into),
        Form::Twelve | Form::Sixteen => unreachable!(),
    }
}

fn report_luns_form(select: u8, allocation: u32, control: u8) -> [u8; 12]
    ensures { result ≡ report_luns_form select allocation control }
{
    let [a3, a2, a1, a0] = allocation.to_be_bytes();
    [0xa0, 0, select, 0, 0, 0, a3, a2, a1, a0, 0, control]
}

fn read_capacity_form(allocation: u32, control: u8) -> [u8; 16]
    ensures { result ≡ read_capacity_form allocation control }
{
    let [a3, a2, a1, a0] = allocation.to_be_bytes();
    [
        0x9e, 0x10, 0, 0, 0, 0, 0, 0, 0, 0, a3, a2, a1, a0, 0, control,
    ]
}

fn reserve_out_form(action: u8, kind: u8, list: u32, control: u8) -> [u8; 10]
    ensures { result ≡ reserve_out_form action kind list control }
{
    let [l3, l2, l1, l0] = list.to_be_bytes();
    [0x5f, action, kind, 0, 0, l3, l2, l1, l0, control]
}

#[cfg(test)]
mod tests {
    use super::*;

    #[test]
    fn writes_each_form(rt: HostRuntime) {
        let form = Form::Ten;
        let (lba, count) = (0x1234_5678, 256);
        let read = Cdb {
            op: Op::Read { form, lba, count },
            control: 0xc0,
        };
        let mut into = *b"................";
        assert_eq!(rt; encode(&read, &mut into), 10);
        assert_eq!(rt; &into, b"\x28\0\x12\x34\x56\x78\0\x01\0\xc0......");

        let (lba, count) = (511, 1);
        let write = Cdb {
            op: Op::Write { form, lba, count },
            control: 0,
        };
        let mut into = *b"................";
        assert_eq!(rt; encode(&write, &mut into), 10);
        assert_eq!(rt; &into, b"\x2a\0\0\0\x01\xff\0\0\x01\0......");
    }
}
