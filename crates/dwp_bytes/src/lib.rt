//! Reading numbers and bytes of DWARF data.
#![tactic(auto)]

mod encoding;
mod error;
pub mod laws;
mod reader;
mod relocation;
mod slice;

pub use encoding::{Encoding, Format, StringOffsets, string_at};
pub use error::{ReadError, WriteError};
pub use reader::Reader;
pub use relocation::{Relocate, Relocation, RelocationEntry};
pub use slice::SliceReader;
