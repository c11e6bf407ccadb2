//! Bytes in and out: sources, sinks, and the lines of a source.
//!
//! A [`Source`] and a [`Sink`] say what they tell of their bytes, and count their faults. The
//! implementations in memory tell everything, those over std's readers and writers nothing.
#![tactic(auto)]

mod buffer;
mod held;
mod law;
mod line_reader;
mod next;
mod sink;
mod sink_memory;
mod sink_std;
mod source;
mod source_memory;
mod source_std;

pub use law::lines_are_read;
pub use line_reader::LineReader;
pub use next::Next;
pub use sink::{Sink, SinkFault, put_all};
pub use sink_memory::MemorySink;
pub use sink_std::StdSink;
pub use source::{Source, SourceFault};
pub use source_memory::MemorySource;
pub use source_std::StdSource;
