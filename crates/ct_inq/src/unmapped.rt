//! The answer to a command for a number under which no logical unit is seen.

ghost use Rattle.std.specs.Prelude.{◌≡◌, ◌≤◌, ◌-◌, ◌++◌, length, IfOk};
ghost use Rattle.ct_sense.specs.Forms.{bytes_of_sense};
ghost use Rattle.ct_inq.specs.Allocation.{cut};
ghost use Rattle.ct_inq.specs.Direct.{absent_inquiry, absent_page, direct_data, not_supported, replied, direct_reply};

use crate::allocation::append_cut;
use crate::inquiries::standard;
use crate::luns::report_luns;
use ct_cdb::{InquiryPage, Op, decode};
use ct_sense::{Reply, Status, code, sense_bytes};
use ct_word::{Bytes, NoMemory, Reserve};
use std::alloc::Global;

/// PERIPHERAL QUALIFIER and PERIPHERAL DEVICE TYPE: there is no logical unit
const NO_DEVICE: u8 = 0x7f;

/// The most bytes of data: of REPORT LUNS.
const MOST_DATA: usize = 136;

/// Answers a command for a number under which its initiator sees no logical unit. Of the numbers 0 to 15 it sees those
/// whose bit in `visible` is 1.
#[tactic(auto, unfolding(crate::specs::Direct::direct_reply))]
pub fn direct(alloc: Global, visible: u16, cdb: &[u8]) -> Result<Reply, NoMemory>
    ensures { IfOk result (λ reply. reply ≡ direct_reply visible cdb.now) }
{
    let returned = match decode(cdb) {
        Ok(cdb) => direct_data(alloc, visible, &cdb.op)?,
        Err(_) => None,
    };
    Ok(replied(alloc, returned))
}

fn replied(alloc: Global, returned: Option<Bytes>) -> Reply
    ensures { result ≡ replied returned }
{
    match returned {
        Some(body) => Reply {
            status: Status::Good,
            sense: None,
            descriptor: false,
            body,
        },
        None => Reply {
            status: Status::CheckCondition,
            sense: Some(code::LOGICAL_UNIT_NOT_SUPPORTED.sense(None)),
            descriptor: false,
            body: Bytes::new(alloc),
        },
    }
}

#[tactic(auto, using(crate::proofs::Sizes::most_bytes))]
fn direct_data(alloc: Global, visible: u16, op: &Op) -> Result<Option<Bytes>, NoMemory>
    ensures { IfOk result (λ bytes. bytes ≡ direct_data visible op.now) }
{
    match *op {
        Op::Inquiry { page, allocation } => inquiry_data(alloc, page, allocation),
        Op::ReportLuns { select, allocation } => {
            let mut into = Reserve::open(alloc, MOST_DATA)?;
            report_luns(select, allocation, visible, &mut into);
            Ok(Some(into.into_bytes()))
        }
        Op::RequestSense {
            descriptor,
            allocation,
        } => sense_data(alloc, descriptor, allocation),
        _ => Ok(None),
    }
}

// The standard data of INQUIRY, and no page.
fn inquiry_data(
    alloc: Global,
    page: InquiryPage,
    allocation: u16,
) -> Result<Option<Bytes>, NoMemory>
    ensures { IfOk result (λ bytes. bytes ≡ absent_page page allocation) }
{
    match page {
        InquiryPage::Standard => {
            let bytes = kept(alloc, &absent(), usize::from(allocation))?;
            Ok(Some(bytes))
        }
        _ => Ok(None),
    }
}

#[tactic(auto, unfolding(crate::specs::Direct::absent_inquiry))]
fn absent() -> [u8; 36]
    ensures { result ≡ absent_inquiry }
{
    let mut bytes = standard();
    bytes[0] = NO_DEVICE;
    bytes
}

// What REQUEST SENSE returns, in the form that it asks for.
fn sense_data(alloc: Global, descriptor: bool, allocation: u8) -> Result<Option<Bytes>, NoMemory>
    ensures { IfOk result (λ bytes. bytes ≡ Some (cut allocation (bytes_of_sense not_supported descriptor))) }
{
    let mut bytes = [0; 20];
    let size = sense_bytes(
        &code::LOGICAL_UNIT_NOT_SUPPORTED.sense(None),
        descriptor,
        &mut bytes,
    );
    let told = kept(alloc, &bytes[..size], usize::from(allocation))?;
    Ok(Some(told))
}

// Data, cut to the allocation length.
fn kept(alloc: Global, whole: &[u8], allocation: usize) -> Result<Bytes, NoMemory>
    ensures { IfOk result (λ bytes. bytes ≡ cut allocation whole.now) }
{
    let mut into = Reserve::open(alloc, whole.len())?;
    append_cut(whole, allocation, &mut into);
    Ok(into.into_bytes())
}
