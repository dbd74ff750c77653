ghost use Rattle.std.specs.Prelude.{◌≡◌, ◌≤◌, IfSome, IfNone, option_map, [], ◌∷◌, length};
ghost use Rattle.ct_cdb.specs.Forms.{cdb_of};
ghost use Rattle.ct_cdb.specs.Profiles.{reports};
ghost use Rattle.ct_exec.specs.Executions.{undecoded, reported, reserved, stopped, asks_saved, unsaved, short_of_data};
ghost use Rattle.ct_exec.specs.Executions.{faulty_list, out_of_range, write_protected, faulty_action, first_refusal};
ghost use Rattle.ct_exec.specs.Executions.{refusal_of, refused_control, plan_in, need_in};
ghost use Rattle.ct_exec.specs.Refusals.{refused_reply};

use crate::control::Control;
use crate::modes::list_fault;
use crate::refusal::{Refusal, check_condition};
use ct_book::Command;
use ct_cdb::{CdbFault, Op, PageControl, Profile};
use ct_plan::Plan;
use ct_sense::{Status, code};
use ct_ua::sense_code;
use ct_word::Nexus;
use ct_word::limit::MOST_BLOCKS;

// Why bytes are refused that are no CDB.
fn undecoded(c: &Control, fault: CdbFault) -> Refusal
    ensures { refused_reply result ≡ undecoded c.now fault }
{
    match fault {
        CdbFault::Empty | CdbFault::BadOperation => {
            check_condition(c, code::INVALID_COMMAND_OPERATION_CODE, None)
        }
        CdbFault::BadLength { .. } | CdbFault::BadField { .. } => {
            check_condition(c, code::INVALID_FIELD_IN_CDB, None)
        }
    }
}

// The first of the checks behind that of unit attentions that refuses an operation of a nexus with this data-out.
fn row_refusal(
    c: &Control,
    nexus: Nexus,
    op: &Op,
    out: &[u8],
    profile: &Profile,
    blocks: u32,
) -> Option<Refusal>
    ensures { first_refusal (
        reserved c.now nexus profile.now.class
        ∷ stopped c.now profile.now
        ∷ unsaved c.now op.now
        ∷ short_of_data c.now (length out.now) profile.now
        ∷ faulty_list c.now blocks out.now op.now
        ∷ out_of_range c.now blocks profile.now
        ∷ write_protected c.now profile.now
        ∷ faulty_action c.now nexus out.now op.now
        ∷ [])
        ≡ option_map refused_reply result }
{
    if !c.allows(nexus, profile.class) {
        return Some(Refusal::of_status(Status::ReservationConflict));
    }
    if profile.needs_started && !c.is_started() {
        return Some(check_condition(c, code::INITIALIZING_COMMAND_REQUIRED, None));
    }
    if asks_saved(op) {
        return Some(check_condition(c, code::SAVING_PARAMETERS_NOT_SUPPORTED, None));
    }
    if (out.len() as u64) < profile.data_out {
        return Some(check_condition(c, code::PARAMETER_LIST_LENGTH_ERROR, None));
    }
    if let Some(fault) = list_fault(c.pages(), blocks, out, op) {
        return Some(check_condition(c, fault.sense_code(), None));
    }
    if !profile.ranges.are_inside(blocks) {
        return Some(check_condition(c, code::LBA_OUT_OF_RANGE, None));
    }
    if profile.is_write && c.pages().protect {
        return Some(check_condition(c, code::WRITE_PROTECTED, None));
    }
    action_refusal(c, nexus, out, op)
}

// Why the action of a PERSISTENT RESERVE OUT of a nexus is refused.
fn action_refusal(c: &Control, nexus: Nexus, out: &[u8], op: &Op) -> Option<Refusal>
    ensures { faulty_action c.now nexus out.now op.now ≡ option_map refused_reply result }
{
    let fault = c.action_fault(nexus, out, op)?;
    match fault.sense_code() {
        Some(code) => Some(check_condition(c, code, None)),
        None => Some(Refusal::of_status(Status::ReservationConflict)),
    }
}

fn asks_saved(op: &Op) -> bool
    ensures { result ≡ asks_saved op.now }
{
    match *op {
        Op::ModeSense {
            control: PageControl::Saved,
            ..
        } => true,
        _ => false,
    }
}

// The unit attention that a command reports, taken.
#[tactic(auto, unfolding(crate::specs::Controls::has_descriptors, crate::specs::Executions::refused_control, ct_ua::specs::Attentions::first_code, ct_ua::specs::Attentions::after_take))]
fn reported(c: &mut Control, command: &Command, profile: &Profile) -> Option<Refusal>
    requires { profile.now.reports_attention ≡ reports (cdb_of command.now.cdb) }
    ensures answer { reported c.old command.now.nexus profile.now.reports_attention ≡ option_map refused_reply result }
    ensures refused { IfSome result (λ _. c.new ≡ refused_control c.old command.now) }
    ensures unchanged { IfNone result ((c.new ≡ c.old) × (refused_control c.old command.now ≡ c.old)) }
{
    if !profile.reports_attention {
        return None;
    }
    let condition = c.take_attention(command.nexus)?;
    Some(check_condition(c, sense_code(condition), None))
}

/// The first of the checks that refuses a command, on a disk of so many blocks; None where it may begin. A unit
/// attention that is reported is taken.
#[tactic(auto, unfolding(crate::specs::Executions::refusal_of, crate::specs::Executions::refused_control))]
pub fn check(c: &mut Control, command: &Command, blocks: u32) -> Option<Refusal>
    ensures answer { refusal_of c.old blocks command.now ≡ option_map refused_reply result }
    ensures refused { IfSome result (λ _. c.new ≡ refused_control c.old command.now) }
    ensures unchanged { IfNone result (c.new ≡ c.old) }
{
    match command.cdb.decoded() {
        Err(fault) => Some(undecoded(c, *fault)),
        Ok(cdb) => {
            if !cdb.op.is_built() {
                return Some(check_condition(c, code::INVALID_COMMAND_OPERATION_CODE, None));
            }
            let profile = command.profile(blocks);
            match reported(c, command, &profile) {
                Some(refusal) => Some(refusal),
                None => row_refusal(
                    c,
                    command.nexus,
                    &cdb.op,
                    command.out.as_slice(),
                    &profile,
                    blocks,
                ),
            }
        }
    }
}

/// The plan of a command, on a disk of so many blocks, 1 to 65,536. That of one that doesn't decode is empty.
#[tactic(auto, unfolding(crate::specs::Executions::plan_in, crate::specs::Executions::need_in))]
pub fn plan(command: &Command, blocks: u32) -> Plan
    requires { blocks ≤ MOST_BLOCKS }
    ensures operations { result.operations ≡ plan_in blocks command.now }
    ensures need { result.need ≡ need_in blocks command.now }
{
    Plan::by(command.profile(blocks), command.out.len(), blocks)
}
