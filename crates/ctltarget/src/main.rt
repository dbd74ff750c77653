//! The program: from its words, standard input and standard output to the top call.
#![tactic(auto)]

mod program;
mod reason;
#[cfg(test)]
mod tests;

use crate::program::run;
use ct_io::{StdSink, StdSource};
use std::process::ExitCode;
use std::{env, io};

fn main(rt: HostRuntime) -> ExitCode {
    let mut source = StdSource::new(rt.reader());
    let mut sink = StdSink::new(io::writer(&rt));
    run(&rt, env::args(&rt), &mut source, &mut sink)
}
