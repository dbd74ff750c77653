//! The data that a command returns of the logical unit itself, and not of its blocks.

ghost use Rattle.std.specs.Prelude.{◌≡◌, ◌≤◌, [], ◌++◌, length};
ghost use Rattle.ct_cdb.specs.Profiles.{profile_of};
ghost use Rattle.ct_book.specs.Works.{room_for};
ghost use Rattle.ct_exec.specs.Data.{sense_data, data_by, data_of_unit};

use crate::control::Control;
use ct_book::Command;
use ct_cdb::Op;
use ct_inq::{capacity_10, capacity_16, inquiry, report_luns};
use ct_pages::sense_mode;
use ct_sense::{code, sense_bytes};
use ct_ua::sense_code;
use ct_word::{Code, Nexus, Reserve};

/// Adds the data of a command, on a disk of so many blocks.
#[tactic(auto, unfolding(crate::specs::Data::data_of_unit))]
pub(crate) fn push_data(c: &Control, command: &Command, blocks: u32, into: &mut Reserve<u8>)
    requires { room_for command.now.cdb ≤ into.old.room }
    ensures { into.new.items ≡ into.old.items ++ data_of_unit c.now blocks command.now }
{
    if let Ok(cdb) = command.cdb.decoded() {
        push_data_by(c, blocks, command.nexus, command.visible, &cdb.op, into);
    }
}

fn push_data_by(
    c: &Control,
    blocks: u32,
    nexus: Nexus,
    visible: u16,
    op: &Op,
    into: &mut Reserve<u8>,
)
    requires { (profile_of op.now [] 0).data_in ≤ into.old.room }
    ensures { into.new.items ≡ into.old.items ++ data_by c.now blocks nexus visible op.now }
{
    match *op {
        Op::RequestSense {
            descriptor,
            allocation,
        } => push_sense(c.first_attention(nexus), descriptor, allocation, into),
        Op::Inquiry { page, allocation } => inquiry(page, allocation, c.lun(), into),
        Op::ReportLuns { select, allocation } => report_luns(select, allocation, visible, into),
        Op::ReadCapacity10 => capacity_10(blocks, into),
        Op::ReadCapacity16 { allocation } => capacity_16(blocks, allocation, into),
        Op::ModeSense {
            form,
            no_descriptor,
            control,
            page,
            allocation,
        } => sense_mode(
            &c.pages(),
            blocks,
            form,
            no_descriptor,
            control,
            page,
            allocation,
            into,
        ),
        Op::PersistentReserveIn { action, allocation } => {
            c.push_reservations(action, allocation, into)
        }
        _ => {}
    }
}

// Adds what REQUEST SENSE returns.
fn push_sense(condition: Option<Code>, descriptor: bool, allocation: u8, into: &mut Reserve<u8>)
    requires { length (sense_data condition descriptor allocation) ≤ into.old.room }
    ensures { into.new.items ≡ into.old.items ++ sense_data condition descriptor allocation }
{
    let told = match condition {
        Some(condition) => sense_code(condition),
        None => code::NO_ADDITIONAL_SENSE_INFORMATION,
    };
    let mut bytes = [0; 20];
    let size = sense_bytes(&told.sense(None), descriptor, &mut bytes);
    into.append(&bytes[..size.min(usize::from(allocation))]);
}
