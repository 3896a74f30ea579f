//! The system's files, as the program reads and writes them, its terminal, and standard output.
#![tactic(auto)]

mod inputs;
mod pipes;
mod progress;
mod responses;

pub use inputs::{HostFiles, NamedFile, NotedFiles, Peculiarity, ReadingSettings};
pub use pipes::WatchedWriter;
pub use progress::{Console, Lines};
pub use responses::{HostResponses, NotedResponses, RefusedResponse};
