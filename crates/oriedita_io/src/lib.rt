//! Where bytes come from and where they go: sources, sinks, files, and the faults that they count.
#![tactic(auto)]

pub use faults::{Failed, OpenFault};
pub use file_opener::FileOpener;
pub use mem_opener::{MemFile, MemOpener};
pub use mem_sink::MemSink;
pub use mem_source::MemSource;
pub use opening::Opener;
pub use reading::{Input, InputEnd, LONGEST_INPUT, Source, read_all};
pub use standard::{StdinSource, StdoutSink};
pub use writing::{Sink, write_all};

mod faults;
mod file_opener;
mod mem_opener;
mod mem_sink;
mod mem_source;
mod opening;
mod reading;
mod standard;
mod writing;
