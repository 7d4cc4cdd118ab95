//! The outside of the program: files, input and output as three traits, with types that keep all of it in memory and
//! adapters over the real ones. What a call does, and what it tells of the bytes, stands at the traits; when a fault
//! may be answered, in `specs/Causes.antt`.
#![tactic(auto)]

mod clean;
mod files;
mod memory_shelf;
mod memory_sink;
mod memory_source;
mod streams;
mod traits;

pub use clean::{CleanShelf, CleanSink, CleanSource};
pub use files::{FILE_LIMIT, FileShelf};
pub use memory_shelf::MemoryShelf;
pub use memory_sink::MemorySink;
pub use memory_source::MemorySource;
pub use streams::{ReaderSource, StderrSink, StdinSource, StdoutSink, WriterSink};
pub use traits::{Failed, LoadFault, PutFault, Shelf, Sink, Source};
