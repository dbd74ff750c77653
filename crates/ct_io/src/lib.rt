//! Sources and sinks of bytes whose calls may fail, and that count their faults.
#![tactic(auto)]

mod call_log;
mod mem_sink;
mod mem_source;
mod sink;
mod source;
mod std_streams;
#[cfg(test)]
mod tests;
mod whole;

pub use mem_sink::MemSink;
pub use mem_source::MemSource;
pub use sink::Sink;
pub use source::Source;
pub use std_streams::{StdSink, StdSource};
pub use whole::{PutFault, TakeError, put_all, take_all};
