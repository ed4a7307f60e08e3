//! Lines, words and numbers in bytes, read from sources and written to sinks.
#![tactic(auto)]

mod buffer;
mod fault;
mod line;
mod line_buffer;
mod lines;
mod memory;
mod number;
mod standard;
mod stream;
mod words;

pub use fault::{Line, LineFault, RestFault};
pub use line::{Field, count_of, push_line};
pub use line_buffer::LineBuffer;
pub use lines::Lines;
pub use memory::{MemorySink, MemorySource};
pub use number::{NumberFault, push_number, read_number};
pub use standard::{StdSink, StdSource};
pub use stream::{Failed, Sink, Source};
pub use words::{cut, is_word};
