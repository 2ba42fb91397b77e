//! The world outside of the program: files to read and sinks to write to.
#![tactic(auto)]

mod disk;
mod files;
mod laws;
mod mem_files;
mod mem_sink;
mod name;
mod script;
mod sink;
mod slots;
mod stream;

pub use disk::DiskFiles;
pub use files::{FileNo, Files, Got, Opened};
pub use laws::{files_are_left, open_files_stay, sinks_gain};
pub use mem_files::{MemFile, MemFiles};
pub use mem_sink::MemSink;
pub use name::{FileName, NameFault};
pub use sink::{Put, PutFault, Sink, put_all};
pub use stream::StreamSink;

#[cfg(test)]
mod tests;
