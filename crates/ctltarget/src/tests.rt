use crate::program::run;
use crate::reason::reason_for;
use ct_io::{MemSink, MemSource};
use ct_top::{Exit, ScriptFault, Served, What};
use std::env::Args;
use std::io::{self, ErrorKind};
use std::process::ExitCode;
use std::test::Fail;

const SCRIPT: &[u8] = b"lun 0 blocks 5\nport 0 a\nmap 0 0 0 0\n";

/// The calls of a source and of a sink that fail, from 0.
#[derive(Clone, Copy)]
struct Fails<'a> {
    source: &'a [u64],
    sink: &'a [u64],
}

const NEVER: Fails<'static> = Fails {
    source: &[],
    sink: &[],
};

// How the program ends with these words behind its name, and with this script.
fn ends(
    rt: &(impl Eprint + AllocGlobal),
    words: &[&str],
    script: &[u8],
    fails: Fails<'_>,
) -> Result<ExitCode, Fail> {
    let alloc = rt.alloc();
    let mut args = vec![in alloc; String::from_str(alloc, "ctltarget")?]?;
    for word in words {
        args.push(String::from_str(alloc, *word)?)?;
    }
    ends_with(rt, Ok(args.into_iter()), script, fails)
}

fn ends_with(
    rt: &(impl Eprint + AllocGlobal),
    args: io::Result<Args>,
    script: &[u8],
    fails: Fails<'_>,
) -> Result<ExitCode, Fail> {
    let alloc = rt.alloc();
    let failing = Vec::from_slice(alloc, fails.source)?;
    let mut source = MemSource::new(Vec::from_slice(alloc, script)?, 16, failing);
    let mut sink = MemSink::new(16, Vec::from_slice(alloc, fails.sink)?);
    sink.reserve(alloc, 4096)?;
    Ok(run(rt, args, &mut source, &mut sink))
}

#[test]
fn ends_with_each_status(rt: HostRuntime) -> Result<(), Fail> {
    let read_fails = Fails {
        source: &[1],
        ..NEVER
    };
    let write_fails = Fails {
        sink: &[1],
        ..NEVER
    };
    let cases: [(&[&str], &[u8], Fails<'_>, u8); 7] = [
        (&["play"], SCRIPT, NEVER, 0),
        (&[], SCRIPT, NEVER, 2),
        (&["play", "play"], SCRIPT, NEVER, 2),
        (&["x", "play"], SCRIPT, NEVER, 2),
        (&["play"], b"sync \n", NEVER, 3),
        (&["play"], SCRIPT, read_fails, 4),
        (&["play"], SCRIPT, write_fails, 5),
    ];
    for (words, script, fails, status) in cases {
        let code = ends(&rt, words, script, fails)?;
        assert_eq!(rt; code, ExitCode::from(status), "at {words:?}");
    }
    Ok(())
}

#[test]
fn ends_without_words(rt: HostRuntime) -> Result<(), Fail> {
    for (kind, status) in [(ErrorKind::InvalidData, 2), (ErrorKind::OutOfMemory, 6)] {
        let code = ends_with(&rt, Err(io::Error::from(kind)), SCRIPT, NEVER)?;
        assert_eq!(rt; code, ExitCode::from(status));
    }
    Ok(())
}

fn fault(what: What) -> Exit {
    Exit::Script(ScriptFault { line: 7, what })
}

#[test]
fn tells_each_reason(rt: HostRuntime) -> Result<(), Fail> {
    let alloc = rt.alloc();
    let cases = [
        (Exit::Usage, "usage"),
        (fault(What::Form), "script line 7: form"),
        (fault(What::Name), "script line 7: name"),
        (fault(What::Limit), "script line 7: limit"),
        (Exit::TooLong, "script too long"),
        (Exit::Read, "read fault"),
        (Exit::Write, "write fault after 12 bytes"),
        (Exit::Memory, "no memory"),
    ];
    for (exit, text) in cases {
        let served = Served {
            exit,
            sent: 12,
            ends: Vec::new(alloc),
        };
        let told = match reason_for(&served) {
            Some(reason) => format!(in alloc; "{reason}")?,
            None => String::new(alloc),
        };
        assert_eq!(rt; told.as_str(), text);
    }
    Ok(())
}
