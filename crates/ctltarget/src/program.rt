//! The program as a function of its words, a source and a sink.

ghost use Rattle.std.specs.Prelude.{◌≡◌, drop, map, string_bytes, IfOk, IfErr, Err};
ghost use Rattle.std.specs.Vec.Iter.{into_iter_items};
ghost use Rattle.std.specs.Process.{exit_status};
ghost use Rattle.std.specs.IoError.{error_kind};
ghost use Rattle.ct_top.specs.Exits.{status_of, IsServed, IsUntouched};
ghost use Rattle.ct_top.specs.declared.served.Exit.TheVariants as exits;
ghost use Rattle.ctltarget.specs.Words.{exit_without_words, Ended, EndedWithout};

use crate::reason::reason_for;
use ct_io::{Sink, Source};
use ct_top::{Exit, Served, target_one};
use std::alloc::{AllocError, Global};
use std::env::Args;
use std::io::{self, ErrorKind};
use std::process::ExitCode;

/// Serves the words behind the first, which is the program's own name. Says on standard error why that ended otherwise
/// than Done, and gives its exit status.
pub fn run<S: Source, K: Sink>(
    rt: &(impl Eprint + AllocGlobal),
    args: io::Result<Args>,
    source: &mut S,
    sink: &mut K,
) -> ExitCode
    ensures served { IfOk args (λ args. Ended S.left S.faults K.held K.faults
        (into_iter_items args) source.old source.new sink.old sink.new (exit_status result)) }
    ensures no_words { IfErr args (λ error. EndedWithout source.old source.new sink.old sink.new
        (exit_without_words (error_kind error)) (exit_status result)) }
{
    let served = serve(rt.alloc(), words_of(rt.alloc(), args), source, sink);
    if let Some(reason) = reason_for(&served) {
        let _ = eprintln!(rt; "ctltarget: {reason}");
    }
    exit_code(&served)
}

/// The exit status of the program.
fn exit_code(served: &Served) -> ExitCode
    ensures { exit_status result ≡ status_of served.now.exit }
{
    ExitCode::from(served.exit.status())
}

// The words behind the program's name. Words that aren't text are no written command.
fn words_of(alloc: Global, args: io::Result<Args>) -> Result<Vec<String>, Exit>
    ensures words { IfOk args (λ args. IfOk result (λ words. words.items ≡ drop 1 (into_iter_items args))) }
    ensures memory { IfOk args (λ args. IfErr result (λ exit. exit ≡ exits.Memory)) }
    ensures none { IfErr args (λ error. result ≡ Err (exit_without_words (error_kind error))) }
{
    let args = match args {
        Ok(args) => args,
        Err(error) => return Err(exit_without_words(error.kind())),
    };
    match behind_first(alloc, args) {
        Ok(words) => Ok(words),
        Err(_) => Err(Exit::Memory),
    }
}

// All words but the first.
fn behind_first(alloc: Global, mut words: Args) -> Result<Vec<String>, AllocError>
    ensures { IfOk result (λ kept. kept.items ≡ drop 1 (into_iter_items words)) }
{
    words.next();
    let mut kept = Vec::new(alloc);
    for word in words {
        kept.push(word)?;
    }
    Ok(kept)
}

fn exit_without_words(kind: ErrorKind) -> Exit
    ensures { result ≡ exit_without_words kind }
{
    match kind {
        ErrorKind::OutOfMemory => Exit::Memory,
        _ => Exit::Usage,
    }
}

fn serve<S: Source, K: Sink>(
    alloc: Global,
    words: Result<Vec<String>, Exit>,
    source: &mut S,
    sink: &mut K,
) -> Served
    ensures served { IfOk words (λ words. IsServed S.left S.faults K.held K.faults (map string_bytes words.items) source.old source.new sink.old sink.new result) }
    ensures no_words { IfErr words (λ exit. IsUntouched source.old source.new sink.old sink.new exit result) }
{
    match words {
        Ok(words) => target_one(alloc, &words, source, sink),
        Err(exit) => Served {
            exit,
            sent: 0,
            ends: Vec::new(alloc),
        },
    }
}
