//! Plays each example: the report of `NAME.script` is to be the bytes of `NAME.report`.
#![tactic(auto)]

use ct_io::{MemSink, MemSource};
use ct_top::target_one;
use std::rt::Files;
use std::{fs, io};

const AT_ONCE: usize = 1 << 30;

const MOST_REPORT: usize = 1 << 20;

fn main(rt: HostRuntime) -> io::Result<()> {
    let mut alike: u64 = 0;
    for entry in fs::read_dir(&rt, ".")? {
        let entry = entry?;
        if let Some(name) = entry.file_name().strip_suffix(".script") {
            if prints_its_report(&rt, name)? {
                alike = alike.saturating_add(1);
            } else {
                println!(rt; "{name}: another report")?;
            }
        }
    }
    println!(rt; "{alike} examples, each with its report")
}

fn prints_its_report<R: Files + AllocGlobal>(rt: &R, name: &str) -> io::Result<bool> {
    let alloc = rt.alloc();
    let script = fs::read(rt, format!(in alloc; "{name}.script")?)?;
    let report = fs::read(rt, format!(in alloc; "{name}.report")?)?;
    let mut words = Vec::new(alloc);
    words.push(String::from_str(alloc, "play")?)?;
    let mut source = MemSource::new(script, AT_ONCE, Vec::new(alloc));
    let mut sink = MemSink::new(AT_ONCE, Vec::new(alloc));
    if sink.reserve(alloc, MOST_REPORT).is_err() {
        return Ok(false);
    }
    let served = target_one(alloc, &words, &mut source, &mut sink);
    Ok(served.exit.status() == 0 && sink.bytes() == report.as_slice())
}
