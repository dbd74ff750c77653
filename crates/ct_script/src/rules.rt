//! What a line needs of the lines before it.

ghost use Rattle.std.specs.Prelude.{◌≡◌, ◌<◌, ◌^◌};
ghost use Rattle.std.specs.List.{list_any};
ghost use Rattle.ct_script.specs.Rules.{declares_lun, declares_port, maps, is_command, is_task, acts, is_misnamed_by};
ghost use Rattle.ct_script.specs.Rules.{data_bytes, word_blocks, line_asked};

use crate::script::{Line, Word};
use ct_cdb::asked;
use ct_word::{LunNo, Nexus};

/// A line names something that is declared twice, behind a line that acts, or not at all. The earlier lines may be those
/// that set up alone.
pub fn is_misnamed(acted: bool, earlier: &[Line], word: &Word) -> bool
    ensures { result ≡ is_misnamed_by acted earlier.now word.now }
{
    match word {
        Word::Lun { lun, .. } => acted || any_lun(earlier, *lun),
        Word::Port { port, .. } => acted || any_port(earlier, *port),
        Word::Map { n, x, lun } => {
            acted
                || !any_port(earlier, n.port)
                || !any_lun(earlier, *lun)
                || any_map(earlier, *n, *x)
        }
        Word::Cmd { n, x, .. } | Word::Task { n, x, .. } => {
            !any_port(earlier, n.port) || !any_map(earlier, *n, *x)
        }
        Word::Step { lun, .. } | Word::Drain { lun } => !any_lun(earlier, *lun),
        Word::Sync => false,
    }
}

fn any_lun(lines: &[Line], lun: LunNo) -> bool
    ensures { result ≡ list_any (declares_lun lun) lines.now }
{
    lines.iter().any(|line| declares_lun(line, lun))
}

fn any_port(lines: &[Line], port: u8) -> bool
    ensures { result ≡ list_any (declares_port port) lines.now }
{
    lines.iter().any(|line| declares_port(line, port))
}

fn any_map(lines: &[Line], nexus: Nexus, x: u8) -> bool
    ensures { result ≡ list_any (maps nexus x) lines.now }
{
    lines.iter().any(|line| maps(line, nexus, x))
}

fn declares_lun(line: &Line, lun: LunNo) -> bool
    ensures { result ≡ declares_lun lun line.now }
{
    match &line.word {
        Word::Lun { lun: declared, .. } => declared.0 == lun.0,
        _ => false,
    }
}

fn declares_port(line: &Line, port: u8) -> bool
    ensures { result ≡ declares_port port line.now }
{
    match &line.word {
        Word::Port { port: declared, .. } => *declared == port,
        _ => false,
    }
}

fn maps(line: &Line, nexus: Nexus, x: u8) -> bool
    ensures { result ≡ maps nexus x line.now }
{
    match &line.word {
        Word::Map { n, x: number, .. } => n.is_same(nexus) && *number == x,
        _ => false,
    }
}

/// A command arrives with the line.
pub fn is_command(line: &Line) -> bool
    ensures { result ≡ is_command line.now }
{
    match &line.word {
        Word::Cmd { .. } => true,
        _ => false,
    }
}

/// A task management function is asked with the line.
pub fn is_task(line: &Line) -> bool
    ensures { result ≡ is_task line.now }
{
    match &line.word {
        Word::Task { .. } => true,
        _ => false,
    }
}

/// A line does something, and sets nothing up.
pub fn acts(line: &Line) -> bool
    ensures { result ≡ acts line.now }
{
    match &line.word {
        Word::Lun { .. } | Word::Port { .. } | Word::Map { .. } => false,
        Word::Cmd { .. } | Word::Task { .. } | Word::Step { .. } | Word::Drain { .. } => true,
        Word::Sync => true,
    }
}

/// How much DATA a line has, in bytes.
pub fn data_bytes(line: &Line) -> u64
    ensures data { result ≡ data_bytes line.now }
    ensures small { result < 2 ^ 63 }
{
    match &line.word {
        Word::Cmd { out, .. } => out.len() as u64,
        _ => 0,
    }
}

/// The blocks of the unit that a line declares, if it declares one.
pub fn blocks_of(line: &Line) -> Option<u32>
    ensures { result ≡ word_blocks line.now.word }
{
    match &line.word {
        Word::Lun { blocks, .. } => Some(*blocks),
        _ => None,
    }
}

/// The block operations that a line asks for, on a disk of so many blocks.
pub fn line_asked(line: &Line, blocks: u32) -> u64
    ensures { result ≡ line_asked blocks line.now }
{
    match &line.word {
        Word::Cmd { cdb, out, .. } => match cdb.decoded() {
            Ok(cdb) => asked(&cdb.op, out.as_slice(), blocks),
            Err(_) => 0,
        },
        _ => 0,
    }
}
