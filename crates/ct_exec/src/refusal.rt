ghost use Rattle.std.specs.Prelude.{◌≡◌, false, []};
ghost use Rattle.ct_exec.specs.Executions.{good, check_condition, reply_moved, reply_failed};
ghost use Rattle.ct_exec.specs.Refusals.{refused_reply};

use crate::control::Control;
use ct_plan::BlockOp;
use ct_sense::{Reply, Sense, SenseCode, Status, code};
use ct_word::{Bytes, Reserve};

/// A reply without data: why a command is refused, or failed.
#[derive(Clone, Copy, Debug, PartialEq, Eq)]
pub struct Refusal {
    pub status: Status,
    pub sense: Option<Sense>,
    /// Whether the sense data have the descriptor form.
    pub descriptor: bool,
}

impl Refusal {
    /// A status alone.
    pub fn of_status(status: Status) -> Refusal
        ensures { result ≡ record { status = status; sense = None; descriptor = false } }
    {
        Refusal {
            status,
            sense: None,
            descriptor: false,
        }
    }

    /// The reply, with these bytes as its data-in.
    pub fn into_reply(self, body: Bytes) -> Reply
        ensures { result ≡ record (refused_reply self) { body = body } }
    {
        Reply {
            status: self.status,
            sense: self.sense,
            descriptor: self.descriptor,
            body,
        }
    }
}

/// CHECK CONDITION with these sense data.
pub fn check_condition(c: &Control, code: SenseCode, info: Option<u32>) -> Refusal
    ensures { refused_reply result ≡ check_condition c.now code info }
{
    Refusal {
        status: Status::CheckCondition,
        sense: Some(code.sense(info)),
        descriptor: c.has_descriptors(),
    }
}

/// The reply of a command that made all its block operations, with its data.
pub fn moved_reply(body: Reserve<u8>) -> Reply
    ensures { result ≡ good body.items }
{
    Reply {
        status: Status::Good,
        sense: None,
        descriptor: false,
        body: body.into_bytes(),
    }
}

/// Why a command failed where the medium fails this operation.
pub fn failed(c: &Control, operation: BlockOp) -> Refusal
    ensures { refused_reply result ≡ reply_failed c.now operation }
{
    match operation {
        BlockOp::Get(lba) | BlockOp::Look(lba) | BlockOp::Compare(lba, _) => {
            check_condition(c, code::UNRECOVERED_READ_ERROR, Some(lba))
        }
        BlockOp::Put(lba, _) | BlockOp::Zero(lba) => {
            check_condition(c, code::WRITE_ERROR, Some(lba))
        }
    }
}

/// Why a command ended that found a difference at this byte of its data-out.
pub fn miscompared(c: &Control, offset: u32) -> Refusal
    ensures { refused_reply result ≡ reply_moved c.now (Some offset) [] }
{
    check_condition(c, code::MISCOMPARE_DURING_VERIFY, Some(offset))
}
