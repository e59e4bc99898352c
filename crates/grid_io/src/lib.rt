//! Where bytes come from and where they go: sources and sinks, each with a count of its faults,
//! so that a caller can tell a failing source or sink from a wrong answer. There are sources and
//! sinks in memory, which fail where they are told to, and adapters of the standard reader and
//! writer.
#![tactic(auto)]

mod failed;
mod failures;
mod mem_sink;
mod mem_source;
mod read_all_fault;
mod reading;
mod safe_sink;
mod safe_source;
mod sink;
mod source;
mod std_sink;
mod std_source;
mod write_fault;
mod writing;

pub use failed::Failed;
pub use failures::Calls;
pub use mem_sink::MemSink;
pub use mem_source::MemSource;
pub use read_all_fault::ReadAllFault;
pub use reading::read_all;
pub use safe_sink::SafeSink;
pub use safe_source::SafeSource;
pub use sink::Sink;
pub use source::Source;
pub use std_sink::StdSink;
pub use std_source::StdSource;
pub use write_fault::WriteFault;
pub use writing::write_all;
