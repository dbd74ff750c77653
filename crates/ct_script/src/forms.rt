//! The forms of a script's lines: what the words of a line say.

ghost use Rattle.std.specs.Prelude.{◌≡◌, ◌+◌, ◌-◌, ◌^◌, IfOk, IfSome, option_map, take, bytes_eq};
ghost use Rattle.ct_script.specs.Rules.{IsInRange, IsSized};
ghost use Rattle.ct_script.specs.Reading.{kept};
ghost use Rattle.ct_script.specs.ByteText.{bytes_of_text};
ghost use Rattle.ct_script.specs.Words.{number_in};
ghost use Rattle.ct_script.specs.Forms.{word_of, lun_of, sizes_of, attribute_of, port_of, map_of, step_of, drain_of, sync_of};
ghost use Rattle.ct_script.specs.Forms.{cmd_of, command_of, cdb_bytes_of, data_of};
ghost use Rattle.ct_script.specs.Forms.{task_of, asked_of, function_of, tagged_of};

use crate::byte_text::read_bytes;
use crate::numbers::number_in;
use crate::parts::Parts;
use crate::script::{Sizes, Word};
use ct_cdb::{Attr2, CdbBytes};
use ct_tmf::Function;
use ct_word::limit::{
    DEPTH, MOST_BLOCKS, MOST_CDB, MOST_DATA_OUT, MOST_DEPTH, MOST_POOL, MOST_STEP, POOL,
};
use ct_word::{Bytes, LunNo, Nexus, NoMemory, Node, Tag};
use std::alloc::Global;

/// The most bytes of DATA that are kept: one more than a line may have.
const KEPT_DATA: usize = MOST_DATA_OUT as usize + 1;

/// What the words of a line say, but of DATA that is longer than a line may have just one byte more than that. None where
/// they are in no form.
pub fn read_word(alloc: Global, mut words: Parts<'_>) -> Result<Option<Word>, NoMemory>
    ensures word { IfOk result (λ word. word ≡ option_map kept (word_of words.entry)) }
    ensures in_range { IfOk result (λ word. IfSome word IsInRange) }
{
    let Some(name) = words.next() else {
        return Ok(None);
    };
    if spells(name, "lun") {
        Ok(lun_form(words))
    } else if spells(name, "port") {
        Ok(port_form(words))
    } else if spells(name, "map") {
        Ok(map_form(words))
    } else if spells(name, "cmd") {
        cmd_form(alloc, words)
    } else if spells(name, "task") {
        Ok(task_form(words))
    } else if spells(name, "step") {
        Ok(step_form(words))
    } else if spells(name, "drain") {
        Ok(drain_form(words))
    } else if spells(name, "sync") {
        Ok(sync_form(words))
    } else {
        Ok(None)
    }
}

// `lun 0 blocks N`, and `depth D pool P` behind it
fn lun_form(mut words: Parts<'_>) -> Option<Word>
    ensures word { result ≡ option_map kept (lun_of words.entry) }
    ensures in_range { IfSome result IsInRange }
{
    let lun = words.next()?;
    let name = words.next()?;
    let count = words.next()?;
    if !spells(lun, "0") || !spells(name, "blocks") {
        return None;
    }
    let blocks = number_in(1, MOST_BLOCKS, count)?;
    let sizes = sizes_form(words)?;
    Some(Word::Lun {
        lun: LunNo(0),
        blocks,
        sizes,
    })
}

// `depth D pool P`, or nothing
fn sizes_form(mut words: Parts<'_>) -> Option<Sizes>
    ensures sizes { result ≡ sizes_of words.entry }
    ensures in_range { IfSome result IsSized }
{
    let Some(depth) = words.next() else {
        return Some(Sizes {
            depth: DEPTH,
            pool: POOL,
        });
    };
    let commands = words.next()?;
    let pool = words.next()?;
    let blocks = words.next()?;
    if !words.is_empty() || !spells(depth, "depth") || !spells(pool, "pool") {
        return None;
    }
    Some(Sizes {
        depth: number_in(1, MOST_DEPTH, commands)?,
        pool: number_in(1, MOST_POOL, blocks)?,
    })
}

// `port 0 a`
fn port_form(mut words: Parts<'_>) -> Option<Word>
    ensures word { result ≡ option_map kept (port_of words.entry) }
    ensures in_range { IfSome result IsInRange }
{
    let port = words.next()?;
    let node = words.next()?;
    if !words.is_empty() || !spells(port, "0") || !spells(node, "a") {
        return None;
    }
    Some(Word::Port {
        port: 0,
        node: Node::A,
    })
}

// `map I 0 0 0`
fn map_form(mut words: Parts<'_>) -> Option<Word>
    ensures word { result ≡ option_map kept (map_of words.entry) }
    ensures in_range { IfSome result IsInRange }
{
    let init = words.next()?;
    let port = words.next()?;
    let number = words.next()?;
    let lun = words.next()?;
    if !words.is_empty() || !spells(port, "0") || !spells(number, "0") || !spells(lun, "0") {
        return None;
    }
    let init = number_in(0, 15, init)? as u8;
    Some(Word::Map {
        n: Nexus { port: 0, init },
        x: 0,
        lun: LunNo(0),
    })
}

// `cmd I 0 0 TAG ATTRIBUTE CDB`, and a last word DATA
fn cmd_form(alloc: Global, mut words: Parts<'_>) -> Result<Option<Word>, NoMemory>
    ensures word { IfOk result (λ word. word ≡ option_map kept (cmd_of words.entry)) }
    ensures in_range { IfOk result (λ word. IfSome word IsInRange) }
{
    let Some(init) = words.next() else {
        return Ok(None);
    };
    let Some(port) = words.next() else {
        return Ok(None);
    };
    let Some(number) = words.next() else {
        return Ok(None);
    };
    let Some(tag) = words.next() else {
        return Ok(None);
    };
    let Some(attribute) = words.next() else {
        return Ok(None);
    };
    let Some(cdb) = words.next() else {
        return Ok(None);
    };
    if spells(port, "0") && spells(number, "0") {
        command(alloc, init, tag, attribute, cdb, words)
    } else {
        Ok(None)
    }
}

fn command(
    alloc: Global,
    init: &[u8],
    tag: &[u8],
    attribute: &[u8],
    cdb: &[u8],
    out: Parts<'_>,
) -> Result<Option<Word>, NoMemory>
    ensures in_range { IfOk result (λ word. IfSome word IsInRange) }
    ensures word { IfOk result (λ word. word ≡ option_map kept (command_of
        (number_in 0 15 init.now)
        (number_in 0 (2 ^ 32 - 1) tag.now)
        (attribute_of attribute.now)
        (cdb_bytes_of cdb.now)
        (data_of out.entry))) }
{
    let Some(init) = number_in(0, 15, init) else {
        return Ok(None);
    };
    let Some(tag) = number_in(0, u32::MAX, tag) else {
        return Ok(None);
    };
    let Some(attr) = attribute_in(attribute) else {
        return Ok(None);
    };
    let Some(cdb) = read_cdb(alloc, cdb)? else {
        return Ok(None);
    };
    let Some(out) = read_data(alloc, out)? else {
        return Ok(None);
    };
    Ok(Some(Word::Cmd {
        n: Nexus {
            port: 0,
            init: init as u8,
        },
        x: 0,
        tag: Tag(tag),
        attr,
        cdb,
        out,
    }))
}

fn attribute_in(text: &[u8]) -> Option<Attr2>
    ensures { result ≡ attribute_of text.now }
{
    if spells(text, "simple") {
        Some(Attr2::Simple)
    } else if spells(text, "ordered") {
        Some(Attr2::Ordered)
    } else if spells(text, "head") {
        Some(Attr2::Head)
    } else {
        None
    }
}

fn read_cdb(alloc: Global, text: &[u8]) -> Result<Option<CdbBytes>, NoMemory>
    ensures { IfOk result (λ found. found ≡ cdb_bytes_of text.now) }
{
    let Some(cdb) = read_bytes(alloc, text, MOST_CDB + 1)? else {
        return Ok(None);
    };
    if cdb.len() > MOST_CDB {
        return Ok(None);
    }
    Ok(Some(CdbBytes::new(cdb)))
}

fn read_data(alloc: Global, mut words: Parts<'_>) -> Result<Option<Bytes>, NoMemory>
    ensures { IfOk result (λ found. found ≡ option_map (take (MOST_DATA_OUT + 1)) (data_of words.entry)) }
{
    let Some(text) = words.next() else {
        return Ok(Some(Bytes::new(alloc)));
    };
    if words.is_empty() {
        read_kept(alloc, text)
    } else {
        Ok(None)
    }
}

fn read_kept(alloc: Global, text: &[u8]) -> Result<Option<Bytes>, NoMemory>
    ensures { IfOk result (λ found. found ≡ option_map (take (MOST_DATA_OUT + 1)) (bytes_of_text text.now)) }
{
    read_bytes(alloc, text, KEPT_DATA)
}

// `task I 0 0 NAME`, and a last word TAG
fn task_form(mut words: Parts<'_>) -> Option<Word>
    ensures word { result ≡ option_map kept (task_of words.entry) }
    ensures in_range { IfSome result IsInRange }
{
    let init = words.next()?;
    let port = words.next()?;
    let number = words.next()?;
    if !spells(port, "0") || !spells(number, "0") {
        return None;
    }
    let init = number_in(0, 15, init)? as u8;
    let function = asked_form(words)?;
    Some(Word::Task {
        n: Nexus { port: 0, init },
        x: 0,
        function,
    })
}

// `NAME`, or `NAME TAG`
fn asked_form(mut words: Parts<'_>) -> Option<Function>
    ensures { result ≡ asked_of words.entry }
{
    let name = words.next()?;
    let Some(tag) = words.next() else {
        return function_in(name);
    };
    if !words.is_empty() {
        return None;
    }
    tagged_in(name, Tag(number_in(0, u32::MAX, tag)?))
}

fn function_in(name: &[u8]) -> Option<Function>
    ensures { result ≡ function_of name.now }
{
    if spells(name, "abort-task-set") {
        Some(Function::AbortTaskSet)
    } else if spells(name, "clear-task-set") {
        Some(Function::ClearTaskSet)
    } else if spells(name, "lun-reset") {
        Some(Function::LunReset)
    } else if spells(name, "nexus-reset") {
        Some(Function::NexusReset)
    } else if spells(name, "query-task-set") {
        Some(Function::QueryTaskSet)
    } else if spells(name, "clear-aca") {
        Some(Function::ClearAca)
    } else {
        None
    }
}

fn tagged_in(name: &[u8], tag: Tag) -> Option<Function>
    ensures { result ≡ tagged_of name.now tag }
{
    if spells(name, "abort-task") {
        Some(Function::AbortTask(tag))
    } else if spells(name, "query-task") {
        Some(Function::QueryTask(tag))
    } else {
        None
    }
}

// `step 0 NO N`
fn step_form(mut words: Parts<'_>) -> Option<Word>
    ensures word { result ≡ option_map kept (step_of words.entry) }
    ensures in_range { IfSome result IsInRange }
{
    let lun = words.next()?;
    let number = words.next()?;
    let blocks = words.next()?;
    if !words.is_empty() || !spells(lun, "0") {
        return None;
    }
    Some(Word::Step {
        lun: LunNo(0),
        no: number_in(0, u32::MAX, number)?,
        blocks: number_in(1, MOST_STEP, blocks)?,
    })
}

// `drain 0`
fn drain_form(mut words: Parts<'_>) -> Option<Word>
    ensures word { result ≡ option_map kept (drain_of words.entry) }
    ensures in_range { IfSome result IsInRange }
{
    let lun = words.next()?;
    if !words.is_empty() || !spells(lun, "0") {
        return None;
    }
    Some(Word::Drain { lun: LunNo(0) })
}

// `sync`
fn sync_form(words: Parts<'_>) -> Option<Word>
    ensures word { result ≡ option_map kept (sync_of words.entry) }
    ensures in_range { IfSome result IsInRange }
{
    if words.is_empty() {
        Some(Word::Sync)
    } else {
        None
    }
}

fn spells(word: &[u8], text: &str) -> bool
    ensures { result ≡ bytes_eq word.now text.now }
{
    word == text.as_bytes()
}
