//! The lines of a disk.

ghost use Rattle.std.specs.Prelude.{◌≡◌, ◌≤◌, ◌<◌, ◌+◌, ◌-◌, ◌^◌, ◌++◌, [], false, not, length, drop, bytes_eq};
ghost use Rattle.std.specs.Prelude.{slice_index_or, IfOk, OnOk};
ghost use Rattle.std.specs.List.{position_or_len};
ghost use Rattle.ct_report.specs.Runs.{runs_of};
ghost use Rattle.ct_report.specs.DiskText.{is_zero, block_run_text, block_runs_text, disk_text};

use crate::byte_print::push_byte_text;
use ct_medium::{Backend, Ram};
use ct_word::NoMemory;
use std::io::Write;

/// Adds a line for each maximal run of equal blocks that aren't all zeros. `NoMemory` may leave a part of them.
pub fn push_disk(text: &mut Vec<u8>, disk: &Ram) -> Result<(), NoMemory>
    ensures { OnOk result (text.new.items ≡ text.old.items ++ disk_text disk.now) }
{
    let mut first = 0;
    while first < disk.len() {
        first = push_blocks_from(text, disk, first)?;
    }
    Ok(())
}

// Adds the run of equal blocks from an LBA on, or goes past a block of zeros, and gives the LBA behind it.
fn push_blocks_from(text: &mut Vec<u8>, disk: &Ram, first: u32) -> Result<u32, NoMemory>
    requires inside { first < length disk.now }
    requires few { length disk.now < 2 ^ 32 }
    ensures text { IfOk result (λ end.
        text.new.items ++ block_runs_text end (runs_of bytes_eq (drop end disk.now))
        ≡ text.old.items ++ block_runs_text first (runs_of bytes_eq (drop first disk.now))) }
    ensures some { IfOk result (λ end. first < end) }
    ensures within { IfOk result (λ end. end ≤ length disk.now) }
{
    if is_zero_at(disk, first) {
        return Ok(first + 1);
    }
    let end = run_end(disk, first);
    push_block_run(text, first, end, disk.block(first))?;
    Ok(end)
}

fn is_zero_at(disk: &Ram, lba: u32) -> bool
    requires { lba < length disk.now }
    ensures { result ≡ is_zero (slice_index_or disk.now lba []) }
{
    !disk.is_written(lba) || is_zero(disk.block(lba))
}

// The LBA behind the blocks that are equal to the one at an LBA, from it on.
fn run_end(disk: &Ram, first: u32) -> u32
    requires inside { first < length disk.now }
    requires few { length disk.now < 2 ^ 32 }
    ensures end { result ≡ first + 1
        + position_or_len (λ block. not (bytes_eq block (slice_index_or disk.now first []))) (drop (first + 1) disk.now) }
    ensures within { result ≤ length disk.now }
{
    let bytes = disk.block(first);
    for end in first + 1..disk.len() {
        if disk.block(end) != bytes {
            return end;
        }
    }
    disk.len()
}

fn push_block_run(text: &mut Vec<u8>, first: u32, end: u32, bytes: &[u8]) -> Result<(), NoMemory>
    requires some { first < end }
    requires told { is_zero bytes.now ≡ false }
    ensures { OnOk result (text.new.items
        ≡ text.old.items ++ block_run_text first (record { item = bytes.now; count = end - first })) }
{
    let last = end - 1;
    write!(text, "disk {first} {last} ").map_err(|_| NoMemory)?;
    push_byte_text(text, bytes)?;
    text.push(b'\n')?;
    Ok(())
}

fn is_zero(bytes: &[u8]) -> bool
    ensures { result ≡ is_zero bytes.now }
{
    let mut bits = 0;
    for byte in bytes {
        bits |= *byte;
    }
    bits == 0
}
