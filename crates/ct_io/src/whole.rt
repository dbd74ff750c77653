//! Streams as a whole.

ghost use Rattle.std.specs.Prelude.{◌≡◌, ◌≢◌, ◌+◌, ◌<◌, ◌≤◌, length, take, IfOk, IfErr, OnOk, OnErr};
ghost use Rattle.std.specs.Io.KnownBytes.{Appends, ReadConsumes};
ghost use Rattle.ct_word.specs.Causes.{HasCause, Rose, end_of_u64};
ghost use Rattle.ct_io.specs.declared.whole.TakeError.TheVariants.{ReadFault, NoMemory};
ghost use Rattle.ct_io.specs.Streams.{GivesAll, GivesUpTo, IsLongerThan};

use crate::sink::Sink;
use crate::source::Source;
use ct_word::Failed;
use std::alloc::{AllocError, Global};

/// The most bytes that one read asks for.
const PIECE: usize = 65536;

/// Why a source was not read to its end.
#[derive(Clone, Copy, Debug, PartialEq, Eq)]
pub enum TakeError {
    /// A read failed.
    ReadFault,
    /// More bytes came than were allowed.
    TooLong,
    /// Memory ran out.
    NoMemory,
}

/// A write failed.
#[derive(Clone, Copy, Debug, PartialEq, Eq)]
pub struct PutFault {
    /// How many bytes the sink took before.
    pub sent: u64,
}

impl From<Failed> for TakeError {
    ghost from_gives = { λ _ error. error ≡ ReadFault };

    fn from(_failed: Failed) -> TakeError {
        TakeError::ReadFault
    }
}

impl From<AllocError> for TakeError {
    ghost from_gives = { λ _ error. error ≡ NoMemory };

    fn from(_error: AllocError) -> TakeError {
        TakeError::NoMemory
    }
}

/// Reads a source to its end, in at most `limit + 1` reads of at most 64 KiB, which ask for at most `limit + 1` bytes
/// in all. More than `limit` bytes are refused. An error loses the bytes that were read.
pub fn take_all<S: Source>(
    alloc: Global,
    source: &mut S,
    limit: usize,
) -> Result<Vec<u8>, TakeError>
    ensures all { IfOk result (λ v. GivesAll (S.left source.old) (S.left source.new) v.items) }
    ensures within { IfOk result (λ v. length v.items ≤ limit) }

    ensures too_long { result ≡ Err TakeError.TooLong → IsLongerThan limit (S.left source.old) }
    ensures read { result ≡ Err TakeError.ReadFault → Rose end_of_u64 (S.faults source.old) (S.faults source.new) }
    ensures unfailed { result ≢ Err TakeError.ReadFault → S.faults source.new ≡ S.faults source.old }
    ensures later { S.faults source.old ≤ S.faults source.new }

    ensures given { OnErr result (GivesUpTo (limit + 1) (S.left source.old) (S.left source.new)) }
    ensures few { S.reads source.new ≤ S.reads source.old + limit + 1 }
{
    let mut piece = vec![in alloc; 0u8; limit.min(PIECE - 1) + 1]?;
    let mut taken = Vec::new(alloc);
    loop {
        let room = limit - taken.len();
        let count = read_past(source, room, &mut piece)?;
        if count == 0 {
            return Ok(taken);
        }
        if count > room {
            return Err(TakeError::TooLong);
        }
        taken.extend_from_slice(&piece[..count])?;
    }
}

/// Reads into a piece, and asks for at most one byte past `room`.
fn read_past<S: Source>(source: &mut S, room: usize, piece: &mut [u8]) -> Result<usize, Failed>
    requires { 0 < length piece.old }
    ensures bound { IfOk result (λ n. (n ≤ room + 1) × (n ≤ length piece.new)) }
    ensures bytes { ReadConsumes (S.left source.old) (S.left source.new) result piece.new }
    ensures counted { Rose end_of_u64 (S.reads source.old) (S.reads source.new) }
    ensures cause { HasCause end_of_u64 (S.faults source.old) (S.faults source.new) result }
{
    let most = room.min(piece.len() - 1) + 1;
    source.read(&mut piece[..most])
}

/// Writes all these bytes. Where a write fails, it stops, and says how many were taken before.
pub fn put_all<K: Sink>(sink: &mut K, bytes: &[u8]) -> Result<(), PutFault>
    ensures ok { OnOk result (Appends (K.held sink.old) (K.held sink.new) bytes.now) }
    ensures err { IfErr result (λ fault. Appends (K.held sink.old) (K.held sink.new) (take fault.sent bytes.now)) }
    ensures sent { IfErr result (λ fault. fault.sent < length bytes.now) }
    ensures cause { HasCause end_of_u64 (K.faults sink.old) (K.faults sink.new) result }
{
    let mut sent = 0;
    while sent < bytes.len() {
        match sink.write(&bytes[sent..]) {
            Ok(count) => sent += count,
            Err(Failed) => return Err(PutFault { sent: sent as u64 }),
        }
    }
    Ok(())
}
