//! Classes of ELF files (ELF gABI, "ELF Identification").

/// The class of an ELF file: how wide its addresses, offsets and sizes are (ELF gABI, "ELF
/// Identification").
#[derive(Clone, Copy, Debug, PartialEq, Eq, Hash)]
pub enum Class {
    /// 32 bits.
    Elf32,
    /// 64 bits.
    Elf64,
}
