//! What a file is, by its first bytes (ELF gABI, "ELF Identification"; ar(5)).

ghost use Rattle.std.specs.Prelude.{◌≤◌, length, IfOk};
ghost use Rattle.dwp_base.specs.Reading.{Answers};
ghost use Rattle.dwp_elf_read.specs.Layout.{header_size};
ghost use Rattle.dwp_elf_read.specs.Identification.{kind_of, identity_of};

use crate::error::ReadError;
use dwp_base::{Class, Endianness};

/// What a file is, as its first 16 bytes say.
#[derive(Clone, Copy, Debug, PartialEq, Eq, Hash)]
pub enum FileKind {
    /// An archive, plain or thin.
    Archive,
    /// An ELF file of 32 bits.
    Elf32,
    /// An ELF file of 64 bits.
    Elf64,
}

impl FileKind {
    /// The kind of the file that the bytes are, or begin. Errors: `TooShort` below 16 bytes, and
    /// `NotElf` where the bytes are neither an archive nor an ELF file.
    #[tactic(auto, unfolding(crate::specs::Identification::kind_of))]
    pub fn parse(bytes: &[u8]) -> Result<FileKind, ReadError>
        ensures { Answers (λ kind. kind) result (kind_of bytes.now) }
    {
        if bytes.len() < 16 {
            return Err(ReadError::TooShort);
        }
        if bytes.starts_with(b"!<arch>\n") || bytes.starts_with(b"!<thin>\n") {
            return Ok(FileKind::Archive);
        }
        if !bytes.starts_with(b"\x7fELF") {
            return Err(ReadError::NotElf);
        }
        match bytes[4] {
            1 => Ok(FileKind::Elf32),
            2 => Ok(FileKind::Elf64),
            _ => Err(ReadError::NotElf),
        }
    }
}

/// The class and the byte order of an ELF file that has a whole header.
#[tactic(auto, unfolding(crate::specs::Identification::identity_of))]
pub(crate) fn identity(bytes: &[u8]) -> Result<(Class, Endianness), ReadError>
    ensures value { Answers (λ identity. identity) result (identity_of bytes.now) }
    ensures whole { IfOk result (λ identity. header_size identity.0 ≤ length bytes.now) }
{
    let (class, size) = match FileKind::parse(bytes)? {
        FileKind::Archive => return Err(ReadError::NotElf),
        FileKind::Elf32 => (Class::Elf32, 52),
        FileKind::Elf64 => (Class::Elf64, 64),
    };
    if bytes.len() < size {
        return Err(ReadError::TooShort);
    }
    let order = match bytes[5] {
        1 => Endianness::Little,
        2 => Endianness::Big,
        _ => return Err(ReadError::ByteOrder),
    };
    if bytes[6] != 1 {
        return Err(ReadError::Version);
    }
    Ok((class, order))
}
