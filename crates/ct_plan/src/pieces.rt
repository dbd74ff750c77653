ghost use Rattle.std.specs.Prelude.{◌≡◌, ◌+◌, ◌-◌, ◌*◌, ◌^◌, ◌<◌, ◌≤◌, [], ◌∷◌, ◌++◌, length, slice_set};
ghost use Rattle.std.specs.Prelude.{slice_index_or, option_map, OnOk, OnErr, IfOk, IfSome, IsNone, None};
ghost use Rattle.ct_word.specs.Causes.{HasCause, no_end};
ghost use Rattle.ct_pool.specs.Leases.{IsLeaseOf, blocks_of};
ghost use Rattle.ct_plan.specs.Plans.{gets_among};
ghost use Rattle.ct_plan.specs.Cells.{out_block, zero_block, first_difference, difference_at};
ghost use Rattle.ct_plan.specs.Tasks.{IsReady, IsInside, IsCovered, IsTold, asked, cells_of};
ghost use Rattle.ct_plan.specs.Pieces.{Advances, Uses, Makes, Performs, fault_of, fault_in, faults_at, unfailed_end};
ghost use Rattle.ct_plan.specs.Pieces.{IsRead, IsReadAmong, LastIsRead};

use crate::operation::BlockOp;
use crate::task::{Piece, PieceEnd, Task};
use ct_medium::Backend;
use ct_pool::Pool;
use ct_word::{Block, Failed, Reserve};

// A block of the data-out.
fn out_block(out: &[u8], place: u32) -> &[u8]
    requires { 512 * (place + 1) ≤ length out.now }
    ensures block { result.now ≡ out_block out.now place }
    ensures whole { length result.now ≡ 512 }
{
    let at = place as usize * 512;
    &out[at..at + 512]
}

// The place of the first byte at which a block differs from these bytes.
fn first_difference(block: &[u8; 512], bytes: &[u8]) -> Option<usize>
    ensures place { result ≡ first_difference block.now bytes.now }
    ensures within { IfSome result (λ at. at < 512) }
{
    block.iter().zip(bytes).position(|(a, b)| a != b)
}

// Gets a block of the medium into a buffer, and from there into the data.
fn get<B: Backend>(
    lba: u32,
    buffer: &mut Block,
    body: &mut Reserve<u8>,
    medium: &mut B,
) -> Result<(), Failed>
    requires inside { lba < length (B.blocks medium.old) }
    requires room { 512 ≤ body.old.room }
    ensures got { OnOk result (body.new.items ≡ body.old.items ++ slice_index_or (B.blocks medium.old) lba []) }
    ensures grown { OnOk result (length body.new.items ≡ length body.old.items + 512) }
    ensures room { OnOk result (body.new.room + 512 ≡ body.old.room) }
    ensures read { OnOk result (buffer.new ≡ slice_index_or (B.blocks medium.new) lba []) }
    ensures kept { OnErr result (body.new ≡ body.old) }
    ensures stays { B.blocks medium.new ≡ B.blocks medium.old }
    ensures cause { HasCause no_end (B.faults medium.old) (B.faults medium.new) result }
{
    medium.get(lba, buffer.bytes_mut())?;
    body.append(buffer.bytes());
    Ok(())
}

// Puts these bytes by way of a buffer.
fn put<B: Backend>(lba: u32, bytes: &[u8], buffer: &mut Block, medium: &mut B) -> Result<(), Failed>
    requires inside { lba < length (B.blocks medium.old) }
    requires whole { length bytes.now ≡ 512 }
    ensures put { OnOk result (B.blocks medium.new ≡ slice_set (B.blocks medium.old) lba bytes.now) }
    ensures stays { OnErr result (B.blocks medium.new ≡ B.blocks medium.old) }
    ensures cause { HasCause no_end (B.faults medium.old) (B.faults medium.new) result }
{
    buffer.fill(bytes);
    medium.swap(lba, buffer)
}

// Compares a block of the medium with these bytes, which stand in the data-out behind so many blocks: the offset there
// of the first byte that differs.
fn compare<B: Backend>(
    lba: u32,
    place: u32,
    bytes: &[u8],
    buffer: &mut Block,
    medium: &mut B,
) -> Result<Option<u32>, Failed>
    requires inside { lba < length (B.blocks medium.old) }
    requires told { 512 * (place + 1) ≤ 2 ^ 32 }
    ensures found { IfOk result (λ found.
        found ≡ option_map (λ at. 512 * place + at)
        (first_difference (slice_index_or (B.blocks medium.old) lba []) bytes.now)) }
    ensures read { OnOk result (buffer.new ≡ slice_index_or (B.blocks medium.new) lba []) }
    ensures stays { B.blocks medium.new ≡ B.blocks medium.old }
    ensures cause { HasCause no_end (B.faults medium.old) (B.faults medium.new) result }
{
    medium.get(lba, buffer.bytes_mut())?;
    match first_difference(buffer.bytes(), bytes) {
        Some(at) => Ok(Some(512 * place + at as u32)),
        None => Ok(None),
    }
}

// Makes one operation by way of a buffer: the offset in the data-out of the first byte that differs, if it compares and
// finds one.
fn perform<B: Backend>(
    operation: BlockOp,
    out: &[u8],
    buffer: &mut Block,
    body: &mut Reserve<u8>,
    medium: &mut B,
) -> Result<Option<u32>, Failed>
    requires inside { IsInside (length (B.blocks medium.old)) operation }
    requires covered { IsCovered (length out.now) operation }
    requires told { IsTold operation }
    requires room { 512 * gets_among (operation ∷ []) ≤ body.old.room }
    ensures made { OnOk result (
        Performs out.now operation body.old body.new (B.blocks medium.old) (B.blocks medium.new)) }
    ensures found { IfOk result (λ found.
        found ≡ difference_at out.now operation (record { blocks = B.blocks medium.old; got = body.old.items })) }
    ensures read { OnOk result (IsRead (B.blocks medium.new) buffer.new operation) }
    ensures kept { OnErr result (body.new ≡ body.old) }
    ensures stays { OnErr result (B.blocks medium.new ≡ B.blocks medium.old) }
    ensures cause { HasCause no_end (B.faults medium.old) (B.faults medium.new) result }
{
    match operation {
        BlockOp::Get(lba) => {
            get(lba, buffer, body, medium)?;
            Ok(None)
        }
        BlockOp::Look(lba) => {
            medium.get(lba, buffer.bytes_mut())?;
            Ok(None)
        }
        BlockOp::Put(lba, place) => {
            put(lba, out_block(out, place), buffer, medium)?;
            Ok(None)
        }
        BlockOp::Zero(lba) => {
            put(lba, &[0; 512], buffer, medium)?;
            Ok(None)
        }
        BlockOp::Compare(lba, place) => compare(lba, place, out_block(out, place), buffer, medium),
    }
}

// Makes the next operation of a task, by way of a leased block.
fn make<B: Backend>(
    operation: BlockOp,
    t: &mut Task,
    out: &[u8],
    pool: &mut Pool,
    medium: &mut B,
) -> Result<Option<u32>, Failed>
    requires inside { IsInside (length (B.blocks medium.old)) operation }
    requires covered { IsCovered (length out.now) operation }
    requires told { IsTold operation }
    requires room { 512 * gets_among (operation ∷ []) ≤ t.old.body.room }
    requires leased { IsLeaseOf pool.old t.old.lease }
    requires need { t.old.lease.count ≡ t.old.plan.need }
    requires left { t.old.done < length t.old.plan.operations }
    requires small { t.old.done + 1 < 2 ^ 32 }
    ensures made { OnOk result (Makes out.now (operation ∷ []) t.old t.new (B.blocks medium.old) (B.blocks medium.new)) }
    ensures found { IfOk result (λ found.
        found ≡ difference_at out.now operation (cells_of (B.blocks medium.old) t.old)) }
    ensures read { OnOk result (IsReadAmong (B.blocks medium.new) (blocks_of pool.new t.old.lease) operation) }
    ensures kept { OnErr result (t.new ≡ t.old) }
    ensures stays { OnErr result (B.blocks medium.new ≡ B.blocks medium.old) }
    ensures pool { Uses pool.old pool.new t.old.lease }
    ensures cause { HasCause no_end (B.faults medium.old) (B.faults medium.new) result }
{
    let buffer = pool.block(&t.lease, t.plan.buffer(t.done));
    let found = perform(operation, out, buffer, &mut t.body, medium)?;
    t.done += 1;
    Ok(found)
}

// The end of a piece where the medium failed this operation.
fn fault(operation: BlockOp) -> PieceEnd
    ensures { result ≡ fault_of operation }
{
    match operation {
        BlockOp::Get(lba) | BlockOp::Look(lba) | BlockOp::Compare(lba, _) => PieceEnd::ReadFault(
            lba,
        ),
        BlockOp::Put(lba, _) | BlockOp::Zero(lba) => PieceEnd::WriteFault(lba),
    }
}

// The end of a piece that no fault ended.
fn unfailed(t: &Task) -> Option<PieceEnd>
    ensures { result ≡ unfailed_end t.now }
{
    if t.done == t.plan.length() {
        Some(PieceEnd::All)
    } else {
        None
    }
}

/// Makes the next operations of a task's plan, at most `blocks` of them, and fewer only where the plan ends, a compare
/// finds a difference or the medium fails. Each reads its block into one of the leased blocks, if it reads. It takes no
/// memory.
pub fn advance<B: Backend>(
    t: &mut Task,
    out: &[u8],
    blocks: u32,
    pool: &mut Pool,
    medium: &mut B,
) -> Piece
    requires left { t.old.done < length t.old.plan.operations }
    requires ready { IsReady (length out.now) (length (B.blocks medium.old)) pool.old t.old }
    ensures moved { Advances out.now (asked t.old blocks) t.old t.new (B.blocks medium.old) (B.blocks medium.new) result
        (fault_in result) }
    ensures read { IsNone (fault_in result) →
        LastIsRead (asked t.old blocks) result.moved (B.blocks medium.new) (blocks_of pool.new t.old.lease) }
    ensures pool { Uses pool.old pool.new t.old.lease }
    ensures ready { IsReady (length out.now) (length (B.blocks medium.new)) pool.new t.new }
    ensures counted { B.faults medium.new ≡ B.faults medium.old + faults_at (fault_in result) }
{
    let count = blocks.min(t.plan.length() - t.done);
    for moved in 0..count {
        let operation = t.plan.next(t.done);
        match make(operation, t, out, pool, medium) {
            Ok(None) => {}
            Ok(Some(offset)) => {
                return Piece {
                    moved: moved + 1,
                    end: Some(PieceEnd::Miscompare(offset)),
                };
            }
            Err(Failed) => {
                return Piece {
                    moved,
                    end: Some(fault(operation)),
                };
            }
        }
    }
    Piece {
        moved: count,
        end: unfailed(t),
    }
}
