//! Answers in print: status, sense data and data-in.

ghost use Rattle.std.specs.Prelude.{◌≡◌, ◌++◌, OnOk};
ghost use Rattle.hex.specs.Hex.{encode_lower};
ghost use Rattle.ct_book.specs.Journals.{reply_of};
ghost use Rattle.ct_report.specs.AnswerText.{status_name, outcome_name, sense_text, data_text, answer_text, reply_text};

use crate::byte_print::{hex_pair, push_byte_text};
use ct_book::Book;
use ct_sense::{Reply, Sense, Status, sense_bytes};
use ct_tmf::Outcome;
use ct_word::{Bytes, CmdNo, NoMemory};

/// Adds the answer to a command behind a space, where its reply stands.
pub fn push_reply(text: &mut Vec<u8>, book: &Book, no: CmdNo) -> Result<(), NoMemory>
    ensures { OnOk result (text.new.items ≡ text.old.items ++ reply_text (reply_of book.now no)) }
{
    let Some(reply) = book.reply(no) else {
        return Ok(());
    };
    text.push(b' ')?;
    push_answer(text, reply)
}

// Adds the status (SAM-5, 5.3.1), the sense data (SPC-4, 4.5) and the data-in of a reply.
fn push_answer(text: &mut Vec<u8>, reply: &Reply) -> Result<(), NoMemory>
    ensures { OnOk result (text.new.items ≡ text.old.items ++ answer_text reply.now) }
{
    text.extend_from_slice(status_name(reply.status).as_bytes())?;
    push_sense(text, &reply.sense, reply.descriptor)?;
    push_data(text, &reply.body)
}

fn push_sense(text: &mut Vec<u8>, sense: &Option<Sense>, descriptor: bool) -> Result<(), NoMemory>
    ensures { OnOk result (text.new.items ≡ text.old.items ++ sense_text sense.now descriptor) }
{
    let Some(sense) = sense else {
        return Ok(());
    };
    text.extend_from_slice(b" sense ")?;
    let mut bytes = [0; 20];
    let size = sense_bytes(sense, descriptor, &mut bytes);
    push_digits(text, &bytes[..size])
}

// Adds bytes in plain hexadecimal.
#[tactic(auto, unfolding(hex::specs::Hex::encode_with))]
fn push_digits(text: &mut Vec<u8>, bytes: &[u8]) -> Result<(), NoMemory>
    ensures { OnOk result (text.new.items ≡ text.old.items ++ encode_lower bytes.now) }
{
    for byte in bytes {
        text.extend_from_slice(&hex_pair(*byte))?;
    }
    Ok(())
}

fn push_data(text: &mut Vec<u8>, body: &Bytes) -> Result<(), NoMemory>
    ensures { OnOk result (text.new.items ≡ text.old.items ++ data_text body.now) }
{
    if body.is_empty() {
        return Ok(());
    }
    text.extend_from_slice(b" data ")?;
    push_byte_text(text, body.as_slice())
}

fn status_name(status: Status) -> &'static str
    ensures { result.now ≡ status_name status }
{
    match status {
        Status::Good => "GOOD",
        Status::CheckCondition => "CHECK CONDITION",
        Status::Busy => "BUSY",
        Status::ReservationConflict => "RESERVATION CONFLICT",
        Status::TaskSetFull => "TASK SET FULL",
        Status::AcaActive => "ACA ACTIVE",
        Status::TaskAborted => "TASK ABORTED",
    }
}

/// How a function was answered, in the words of the standard.
pub fn outcome_name(outcome: Outcome) -> &'static str
    ensures { result.now ≡ outcome_name outcome }
{
    match outcome {
        Outcome::Complete => "FUNCTION COMPLETE",
        Outcome::Succeeded => "FUNCTION SUCCEEDED",
        Outcome::Rejected => "FUNCTION REJECTED",
    }
}
