//! The journal in print, one line an event.

ghost use Rattle.std.specs.Prelude.{◌≡◌, ◌++◌, codes, decimal, OnOk};
ghost use Rattle.ct_book.specs.Journals.{reply_of, reply_with};
ghost use Rattle.ct_book.specs.Kept.{logged_in};
ghost use Rattle.ct_report.specs.AnswerText.{outcome_name, reply_text};
ghost use Rattle.ct_report.specs.JournalText.{node_name, kind_name, told_name, cut_text, event_text, logged_text, journal_text};

use crate::answer::{outcome_name, push_reply};
use ct_book::{Book, Event, Kind2, Why};
use ct_tmf::Outcome;
use ct_word::{CmdNo, NoMemory, Node};
use itoa::Buffer;
use std::io::Write;

/// Adds the events of a book, in order.
pub fn push_journal(text: &mut Vec<u8>, book: &Book) -> Result<(), NoMemory>
    ensures { OnOk result (text.new.items ≡ text.old.items ++ journal_text book.now.journal) }
{
    for place in 0..book.len() {
        push_logged(text, book, book.event(place))?;
    }
    Ok(())
}

// Adds the line of an event.
fn push_logged(text: &mut Vec<u8>, book: &Book, event: &Event) -> Result<(), NoMemory>
    ensures { OnOk result (text.new.items ≡ text.old.items ++ logged_text (logged_in book.now event.now)) }
{
    push_event(text, book, event)?;
    text.push(b'\n')?;
    Ok(())
}

// Adds what the line of an event says.
fn push_event(text: &mut Vec<u8>, book: &Book, event: &Event) -> Result<(), NoMemory>
    ensures { OnOk result (text.new.items ≡ text.old.items ++ event_text event.now (reply_with book.now event.now)) }
{
    match *event {
        Event::Came { no, node, line } => push_came(text, no, node, line),
        Event::Enter { no } => push_word(text, "in ", no),
        Event::Turned { no } => push_answered(text, "turned ", book, no),
        Event::Begun { no } => push_word(text, "begun ", no),
        Event::Granted { no } => push_word(text, "granted ", no),
        Event::Moved { no, count } => push_count(text, "moved ", no, count),
        Event::Ended { no } => push_answered(text, "ended ", book, no),
        Event::Cut {
            no,
            puts,
            why: Why::By(by),
            told,
        } => push_cut_by(text, no, puts, by, told),
        Event::Cut {
            no,
            puts,
            why: Why::Medium,
            ..
        } => push_cut_by_medium(text, book, no, puts),
        Event::Asked { no } => push_word(text, "asked ", no),
        Event::Closed { no, outcome } => push_closed(text, no, outcome),
        Event::Deliver { node, kind, no } => push_deliver(text, node, kind, no),
    }
}

// Adds a word and a number.
fn push_word(text: &mut Vec<u8>, word: &str, no: CmdNo) -> Result<(), NoMemory>
    ensures { OnOk result (text.new.items ≡ text.old.items ++ word.now ++ decimal no) }
{
    text.extend_from_slice(word.as_bytes())?;
    push_number(text, no.number())
}

// Adds a word, a number and a count.
fn push_count(text: &mut Vec<u8>, word: &str, no: CmdNo, count: u32) -> Result<(), NoMemory>
    ensures { OnOk result (text.new.items ≡ text.old.items ++ word.now ++ decimal no ++ codes " " ++ decimal count) }
{
    push_word(text, word, no)?;
    text.push(b' ')?;
    push_number(text, count)
}

fn push_number(text: &mut Vec<u8>, number: u32) -> Result<(), NoMemory>
    ensures { OnOk result (text.new.items ≡ text.old.items ++ decimal number) }
{
    text.extend_from_slice(Buffer::new().format(number).as_bytes())?;
    Ok(())
}

// Adds a word, the number of a command and its reply.
fn push_answered(text: &mut Vec<u8>, word: &str, book: &Book, no: CmdNo) -> Result<(), NoMemory>
    ensures { OnOk result (text.new.items ≡ text.old.items ++ word.now ++ decimal no ++ reply_text (reply_of book.now no)) }
{
    push_word(text, word, no)?;
    push_reply(text, book, no)
}

fn push_came(text: &mut Vec<u8>, no: CmdNo, node: Node, line: u32) -> Result<(), NoMemory>
    ensures { OnOk result (text.new.items ≡ text.old.items ++ codes "came " ++ decimal no ++ codes " " ++ node_name node ++ codes " " ++ decimal line) }
{
    let number = no.number();
    let node = node_name(node);
    write!(text, "came {number} {node} {line}").map_err(|_| NoMemory)
}

fn push_cut_by(
    text: &mut Vec<u8>,
    no: CmdNo,
    puts: u32,
    by: CmdNo,
    told: bool,
) -> Result<(), NoMemory>
    ensures { OnOk result (text.new.items ≡ text.old.items ++ cut_text no puts ++ codes " by " ++ decimal by ++ codes " " ++ told_name told) }
{
    push_count(text, "cut ", no, puts)?;
    let number = by.number();
    let told = told_name(told);
    write!(text, " by {number} {told}").map_err(|_| NoMemory)
}

fn push_cut_by_medium(text: &mut Vec<u8>, book: &Book, no: CmdNo, puts: u32) -> Result<(), NoMemory>
    ensures { OnOk result (text.new.items ≡ text.old.items ++ cut_text no puts ++ codes " medium" ++ reply_text (reply_of book.now no)) }
{
    push_count(text, "cut ", no, puts)?;
    text.extend_from_slice(b" medium")?;
    push_reply(text, book, no)
}

fn push_closed(text: &mut Vec<u8>, no: CmdNo, outcome: Outcome) -> Result<(), NoMemory>
    ensures { OnOk result (text.new.items ≡ text.old.items ++ codes "closed " ++ decimal no ++ codes " " ++ outcome_name outcome) }
{
    let number = no.number();
    let outcome = outcome_name(outcome);
    write!(text, "closed {number} {outcome}").map_err(|_| NoMemory)
}

fn push_deliver(text: &mut Vec<u8>, node: Node, kind: Kind2, no: CmdNo) -> Result<(), NoMemory>
    ensures { OnOk result (text.new.items ≡ text.old.items ++ codes "deliver " ++ node_name node ++ codes " " ++ kind_name kind ++ codes " " ++ decimal no) }
{
    let node = node_name(node);
    let kind = kind_name(kind);
    let number = no.number();
    write!(text, "deliver {node} {kind} {number}").map_err(|_| NoMemory)
}

fn node_name(node: Node) -> &'static str
    ensures { result.now ≡ node_name node }
{
    match node {
        Node::A => "a",
        Node::B => "b",
    }
}

fn kind_name(kind: Kind2) -> &'static str
    ensures { result.now ≡ kind_name kind }
{
    match kind {
        Kind2::Ask => "ask",
        Kind2::Function => "function",
        Kind2::Finish => "finish",
        Kind2::Stopped => "stopped",
        Kind2::Grant => "grant",
        Kind2::Stop => "stop",
        Kind2::Reply => "reply",
        Kind2::Response => "response",
    }
}

fn told_name(told: bool) -> &'static str
    ensures { result.now ≡ told_name told }
{
    if told { "told" } else { "silent" }
}
