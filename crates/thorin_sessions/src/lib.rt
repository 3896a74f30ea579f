//! Sessions, which hold what was read and what was made of it.
#![tactic(auto)]

mod session;

pub use session::{ArenaSession, BytesSession, MemorySession, Session, read_into};
