//! The top call.

ghost use Rattle.std.specs.Prelude.{◌≡◌, ◌≢◌, ◌<◌, ◌≤◌, ◌↔◌, ◌⊎◌, [], None, length, take, map, string_bytes, IfOk, IfErr, IfSome, Ok, Err};
ghost use Rattle.std.specs.Io.KnownBytes.{Appends};
ghost use Rattle.ct_word.specs.Causes.{Rose, end_of_u64};
ghost use Rattle.ct_io.specs.Streams.{IsLongerThan};
ghost use Rattle.ct_top.specs.Exits.{IfScript, IsWritten, IsRefusal, status_of};
ghost use Rattle.ct_script.specs.Rules.{declared_blocks};
ghost use Rattle.ct_top.specs.Report.{report_text};
ghost use Rattle.ct_top.specs.Served.{command_of, WasRead, AreEnds, IsEnd, IsReported, IsCutShort, IsPlayable};

use crate::command::{Command, read_command};
use crate::played::play_on;
use crate::report::{UnitEnd, text};
use ct_io::{Sink, Source, TakeError, put_all, take_all};
use ct_law::{blocks_are_serial_at_rest, every_run_is_lawful, runs_are_legal};
use ct_medium::Ram;
use ct_pair::End;
use ct_script::{Line, ParseError, Script, ScriptFault, Word, parse};
use ct_word::NoMemory;
use ct_word::limit::{MOST_BLOCKS, MOST_SCRIPT};
use std::alloc::Global;

/// How a call ended.
#[derive(Clone, Copy, Debug, PartialEq, Eq)]
pub enum Exit {
    /// The whole text was written.
    Done,
    /// The words are no written command. Nothing was read.
    Usage,
    /// The script is in fault.
    Script(ScriptFault),
    /// More than 8,388,608 bytes came.
    TooLong,
    /// The source failed.
    Read,
    /// The sink failed.
    Write,
    /// Memory ran out.
    Memory,
}

impl Exit {
    /// The exit status of the program.
    pub fn status(&self) -> u8
        ensures { result ≡ status_of self.now }
    {
        match self {
            Exit::Done => 0,
            Exit::Usage => 2,
            Exit::Script(_) | Exit::TooLong => 3,
            Exit::Read => 4,
            Exit::Write => 5,
            Exit::Memory => 6,
        }
    }
}

/// What a call did.
#[derive(Debug, Drop)]
pub struct Served {
    pub exit: Exit,
    /// How many bytes of the text the sink took.
    pub sent: u64,
    /// What was played on each logical unit of the script, where the exit is Done or Write.
    pub ends: Vec<UnitEnd>,
}

/// Does what the words ask for: `play` reads a script from the source and writes its report to the sink.
pub fn target_one<S: Source, K: Sink>(
    alloc: Global,
    words: &Vec<String>,
    source: &mut S,
    sink: &mut K,
) -> Served
    ensures done { result.exit ≡ Exit.Done →
        IsReported (S.left source.old) (S.left source.new) (K.held sink.old) (K.held sink.new) result.sent result.ends.items }

    ensures usage { (result.exit ≡ Exit.Usage) ↔ (command_of (map string_bytes words.now.items) ≡ None) }
    ensures unread { result.exit ≡ Exit.Usage → source.new ≡ source.old }

    ensures script { IfScript result.exit (λ fault. WasRead (S.left source.old) (S.left source.new) (Err fault)) }
    ensures too_long { result.exit ≡ Exit.TooLong → IsLongerThan MOST_SCRIPT (S.left source.old) }
    ensures read { result.exit ≡ Exit.Read → Rose end_of_u64 (S.faults source.old) (S.faults source.new) }

    ensures write { result.exit ≡ Exit.Write →
        IsCutShort (S.left source.old) (S.left source.new) (K.held sink.old) (K.held sink.new) result.sent result.ends.items }
    ensures write_fault { result.exit ≡ Exit.Write → Rose end_of_u64 (K.faults sink.old) (K.faults sink.new) }
    ensures unwritten { IsWritten result.exit ⊎ ((sink.new ≡ sink.old) × (result.sent ≡ 0) × (result.ends.items ≡ [])) }

    // Want of memory is the one free answer.
    ensures complete { IsPlayable (map string_bytes words.now.items) (S.left source.old)
        (S.faults source.old) (S.faults source.new) (K.faults sink.old) (K.faults sink.new)
        → (result.exit ≡ Exit.Done) ⊎ (result.exit ≡ Exit.Memory) }
{
    match read_command(words.as_slice()) {
        None => unwritten(alloc, Exit::Usage),
        Some(Command::Play) => play(alloc, source, sink),
    }
}

fn unwritten(alloc: Global, exit: Exit) -> Served
    ensures exit { result.exit ≡ exit }
    ensures sent { result.sent ≡ 0 }
    ensures ends { result.ends.items ≡ [] }
{
    Served {
        exit,
        sent: 0,
        ends: Vec::new(alloc),
    }
}

fn play<S: Source, K: Sink>(alloc: Global, source: &mut S, sink: &mut K) -> Served
    ensures done { result.exit ≡ Exit.Done →
        IsReported (S.left source.old) (S.left source.new) (K.held sink.old) (K.held sink.new) result.sent result.ends.items }
    ensures no_usage { result.exit ≢ Exit.Usage }
    ensures script { IfScript result.exit (λ fault. WasRead (S.left source.old) (S.left source.new) (Err fault)) }
    ensures too_long { result.exit ≡ Exit.TooLong → IsLongerThan MOST_SCRIPT (S.left source.old) }
    ensures read { result.exit ≡ Exit.Read → Rose end_of_u64 (S.faults source.old) (S.faults source.new) }
    ensures write { result.exit ≡ Exit.Write →
        IsCutShort (S.left source.old) (S.left source.new) (K.held sink.old) (K.held sink.new) result.sent result.ends.items }
    ensures write_fault { result.exit ≡ Exit.Write → Rose end_of_u64 (K.faults sink.old) (K.faults sink.new) }
    ensures unwritten { IsWritten result.exit ⊎ ((sink.new ≡ sink.old) × (result.sent ≡ 0) × (result.ends.items ≡ [])) }
{
    match read_script(alloc, source) {
        Ok(script) => match play_script(alloc, script) {
            Ok(ends) => report_ends(alloc, ends, sink),
            Err(NoMemory) => unwritten(alloc, Exit::Memory),
        },
        Err(exit) => unwritten(alloc, exit),
    }
}

// Plays a script on the unit that it declares, if it declares one.
#[tactic(auto, using(crate::proofs::Ranges::blocks_in_range))]
fn play_script(alloc: Global, script: Script) -> Result<Vec<UnitEnd>, NoMemory>
    ensures { IfOk result (λ ends. AreEnds script ends.items) }
{
    script.is_within();
    let mut ends = Vec::new(alloc);
    if let Some(blocks) = declared_blocks(script.lines()) {
        ends.push(play_unit(alloc, script, blocks)?)?;
    }
    Ok(ends)
}

/// The blocks of the first logical unit that the lines declare.
pub(crate) fn declared_blocks(lines: &[Line]) -> Option<u32>
    ensures { result ≡ declared_blocks lines.now }
{
    for line in lines {
        if let Word::Lun { blocks, .. } = &line.word {
            return Some(*blocks);
        }
    }
    None
}

fn play_unit(alloc: Global, script: Script, blocks: u32) -> Result<UnitEnd, NoMemory>
    requires some { 1 ≤ blocks }
    requires few { blocks ≤ MOST_BLOCKS }
    requires declared { declared_blocks script ≡ Some blocks }
    ensures { IfOk result (λ end. IsEnd blocks script end) }
{
    every_run_is_lawful();
    runs_are_legal();
    blocks_are_serial_at_rest();
    let End { lun, book, medium } = play_on(alloc, script, Ram::open(alloc, blocks)?)?;
    Ok(UnitEnd {
        lun,
        book,
        disk: medium,
    })
}

// Writes the report of what was played.
fn report_ends<K: Sink>(alloc: Global, ends: Vec<UnitEnd>, sink: &mut K) -> Served
    ensures done { result.exit ≡ Exit.Done → Appends (K.held sink.old) (K.held sink.new) (report_text ends.items) × (result.sent ≡ length (report_text ends.items)) × (result.ends.items ≡ ends.items) }
    ensures write { result.exit ≡ Exit.Write → Appends (K.held sink.old) (K.held sink.new) (take result.sent (report_text ends.items)) × (result.sent < length (report_text ends.items)) × (result.ends.items ≡ ends.items) }
    ensures write_fault { result.exit ≡ Exit.Write → Rose end_of_u64 (K.faults sink.old) (K.faults sink.new) }
    ensures exits { IsWritten result.exit ⊎ (result.exit ≡ Exit.Memory) }
    ensures unwritten { IsWritten result.exit ⊎ ((sink.new ≡ sink.old) × (result.sent ≡ 0) × (result.ends.items ≡ [])) }
{
    match text(alloc, ends.as_slice()) {
        Ok(text) => write_text(sink, text.as_slice(), ends),
        Err(NoMemory) => unwritten(alloc, Exit::Memory),
    }
}

// The script that a source gives until its end, or why there is none.
fn read_script<S: Source>(alloc: Global, source: &mut S) -> Result<Script, Exit>
    ensures script { IfOk result (λ script. WasRead (S.left source.old) (S.left source.new) (Ok script)) }
    ensures refusal { IfErr result (IsRefusal S.left S.faults source.old source.new) }
{
    let bytes = take_all(alloc, source, MOST_SCRIPT)?;
    Ok(parse(alloc, bytes.as_slice())?)
}

fn write_text<K: Sink>(sink: &mut K, text: &[u8], ends: Vec<UnitEnd>) -> Served
    ensures done { result.exit ≡ Exit.Done → Appends (K.held sink.old) (K.held sink.new) text.now × (result.sent ≡ length text.now) × (result.ends.items ≡ ends.items) }
    ensures write { result.exit ≡ Exit.Write → Appends (K.held sink.old) (K.held sink.new) (take result.sent text.now) × (result.sent < length text.now) × (result.ends.items ≡ ends.items) }
    ensures write_fault { result.exit ≡ Exit.Write → Rose end_of_u64 (K.faults sink.old) (K.faults sink.new) }
    ensures written { IsWritten result.exit }
{
    match put_all(sink, text) {
        Ok(()) => Served {
            exit: Exit::Done,
            sent: text.len() as u64,
            ends,
        },
        Err(fault) => Served {
            exit: Exit::Write,
            sent: fault.sent,
            ends,
        },
    }
}

impl From<TakeError> for Exit {
    ghost use Rattle.std.specs.Prelude.{◌≡◌};
    ghost use Rattle.ct_top.specs.Exits.{exit_of_take};

    ghost from_gives = { λ error exit. exit ≡ exit_of_take error };

    fn from(error: TakeError) -> Exit {
        match error {
            TakeError::ReadFault => Exit::Read,
            TakeError::TooLong => Exit::TooLong,
            TakeError::NoMemory => Exit::Memory,
        }
    }
}

impl From<ParseError> for Exit {
    ghost use Rattle.std.specs.Prelude.{◌≡◌};
    ghost use Rattle.ct_top.specs.Exits.{exit_of_parse};

    ghost from_gives = { λ error exit. exit ≡ exit_of_parse error };

    fn from(error: ParseError) -> Exit {
        match error {
            ParseError::Fault(fault) => Exit::Script(fault),
            ParseError::NoMemory => Exit::Memory,
        }
    }
}
