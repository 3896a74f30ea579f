//! An ELF file with plain sections in place of compressed ones (ELF gABI, "Section Compression").
#![tactic(auto)]

mod agree;
mod asked;
mod convert;
mod error;
mod file;
mod sizes;
mod stream;

pub use asked::Asked;
pub use convert::decompressed;
pub use error::DecompressError;
pub use sizes::{overlaps, plain_length};
