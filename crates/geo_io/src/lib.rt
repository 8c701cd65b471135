//! Sources and sinks of bytes with counted faults, whole reading and writing, and the lines of
//! some bytes.
#![tactic(auto)]

mod buffer;
mod calls;
mod ends;
mod front;
mod in_memory;
mod limits;
mod line;
mod lines;
mod over_std;
mod streams;
mod sure;
mod whole;

pub use ends::{Failed, LineEnd, NoMemory, SinkEnd};
pub use in_memory::{MemSink, MemSource};
pub use limits::INPUT_LIMIT;
pub use line::split_line;
pub use lines::Lines;
pub use over_std::{ReadSource, WriteSink};
pub use streams::{Sink, Source};
pub use sure::{SureSink, SureSource};
pub use whole::write_all;

#[cfg(test)]
mod tests;
