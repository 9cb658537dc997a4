//! Sources and sinks of bytes that count their faults.
#![tactic(auto)]

mod count_sink;
mod failing_sink;
mod failing_source;
mod fault;
mod memory_sink;
mod memory_source;
mod sink;
mod source;
mod std_ends;
mod whole;

pub use count_sink::CountSink;
pub use failing_sink::FailSink;
pub use failing_source::FailSource;
pub use fault::{Failed, NoMemory, TakeFault, WriteFault};
pub use memory_sink::MemSink;
pub use memory_source::MemSource;
pub use sink::Sink;
pub use source::Source;
pub use std_ends::{OneWrite, StdSink, StdSource};
pub use whole::{read_whole, write_whole};
