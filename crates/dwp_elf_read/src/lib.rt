//! Reading ELF files: sections, their relocations, and the values of symbols (ELF gABI).
//!
//! A file is read in place: what is given borrows from the bytes that were handed in, and nothing
//! is allocated.
#![tactic(auto)]

mod error;
mod file;
mod image;
mod kind;
mod relocation;
mod section;

pub use error::{ReadError, WriteError};
pub use file::ElfFile;
pub use kind::FileKind;
pub use relocation::{RawRelocation, Relocations};
pub use section::{Section, Sections};
