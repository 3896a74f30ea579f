//! Why a file can't be decompressed.

ghost use Rattle.std.specs.Prelude.{◌≡◌};
ghost use Rattle.dwp_decompress.specs.Answers as spec;
ghost use Rattle.dwp_decompress.specs.declared.error.DecompressError.TheVariants.{Memory, Read};

use dwp_elf_read::ReadError;
use dwp_inflate::InflateError;
use dwp_zstd::ZstdError;
use std::alloc::{AllocError, AllocFailed};
use thiserror::Error;

/// Why a file can't be decompressed.
#[derive(Clone, Copy, Debug, PartialEq, Eq, Hash, Error)]
pub enum DecompressError {
    /// The file isn't ELF, or a compressed section lies outside of it.
    #[error("File can't be read")]
    Read(ReadError),
    /// A compressed section is shorter than its header, or lacks the older header's `ZLIB`.
    #[error("Bad header of a compressed section")]
    Header,
    /// A section is compressed in a way that isn't known.
    #[error("Unknown type of compression")]
    UnknownType(u32),
    /// A section's stream of zlib's is damaged, or isn't of the size that was said.
    #[error("Section compressed by zlib can't be read")]
    Zlib(InflateError),
    /// A section's stream of zstd's is damaged, or isn't of the size that was said.
    #[error("Section compressed by zstd can't be read")]
    Zstd(ZstdError),
    /// No file of the class has this content: it is too large, or the section with the sections'
    /// names is itself compressed.
    #[error("Decompressed file can't be written")]
    Unrepresentable,
    /// Memory ran out.
    #[error("Out of memory")]
    Memory,
}

impl From<AllocError> for DecompressError {
    ghost from_gives = { λ _ error. error ≡ Memory };

    fn from(_e: AllocError) -> DecompressError {
        DecompressError::Memory
    }
}

impl<T: Drop> From<AllocFailed<T>> for DecompressError {
    ghost from_gives = { λ _ error. error ≡ Memory };

    fn from(_e: AllocFailed<T>) -> DecompressError {
        DecompressError::Memory
    }
}

impl From<ReadError> for DecompressError {
    ghost from_gives = { λ e error. error ≡ Read e };

    fn from(e: ReadError) -> DecompressError {
        DecompressError::Read(e)
    }
}

impl From<InflateError> for DecompressError {
    ghost from_gives = { λ e error. error ≡ spec.inflate_error e };

    fn from(e: InflateError) -> DecompressError {
        match e {
            InflateError::Memory => DecompressError::Memory,
            _ => DecompressError::Zlib(e),
        }
    }
}

impl From<ZstdError> for DecompressError {
    ghost from_gives = { λ e error. error ≡ spec.zstd_error e };

    fn from(e: ZstdError) -> DecompressError {
        match e {
            ZstdError::Memory => DecompressError::Memory,
            _ => DecompressError::Zstd(e),
        }
    }
}
