//! The errors of packaging.

ghost use Rattle.std.specs.Prelude.{◌≡◌, ◌↔◌, IsTrue};
ghost use Rattle.thorin_errors.specs.declared.error.Error.TheVariants.{Io, ObjectRead, GimliRead};
ghost use Rattle.thorin_errors.specs.declared.error.Error.TheVariants.{GimliWrite, Memory};
ghost use Rattle.thorin_errors.specs.Answers.{written_error};
ghost use Rattle.thorin_errors.specs.Inputs.{input_error_of, input_error};
ghost use Rattle.thorin_errors.specs.declared.error.InputError.TheVariants as input;

use dwp_bytes::{ReadError as DwarfReadError, WriteError as DwarfWriteError};
use dwp_elf_read::{ReadError as ElfReadError, WriteError as ElfWriteError};
use std::alloc::{AllocError, AllocFailed};
use std::io;

mod text;

/// What a call of the package builder answers, where no other error is named.
pub type Result<T, E = Error> = std::result::Result<T, E>;

/// Why an input could not be packed, or a package could not be written.
#[derive(Debug, Drop)]
pub enum Error {
    /// An input file could not be read.
    ReadInput(io::Error),
    /// The kind of an input file could not be told.
    ParseFileKind(ElfReadError),
    /// An input file is no ELF file that can be read.
    ParseObjectFile(ElfReadError),
    /// An input is an archive.
    InvalidInputKind,
    /// A section that is used is compressed.
    DecompressData(ElfReadError),
    /// A relocation can't be used, and its section has no name that can be read; the place in it.
    NamelessSection(ElfReadError, usize),
    /// A relocation names a symbol that can't be read; the section and the place in it.
    RelocationWithInvalidSymbol(String, usize),
    /// A second relocation stands at one place; the section and the place in it.
    MultipleRelocations(String, usize),
    /// A relocation is of a type that isn't supported; the section and the place in it.
    UnsupportedRelocation(String, usize),
    /// A skeleton unit names no DWARF object; its identifier.
    MissingDwoName(u64),
    /// An input has no units.
    NoCompilationUnits,
    /// A unit has no root entry.
    NoDie,
    /// The root entry of a unit has another tag than a unit's.
    TopLevelDieNotUnit,
    /// An input lacks a section that it needs; the section's name.
    MissingRequiredSection(&'static str),
    /// A unit's abbreviations can't be read.
    ParseUnitAbbreviations(DwarfReadError),
    /// A unit's header can't be read.
    ParseUnitHeader(DwarfReadError),
    /// A unit's root entry can't be read.
    ParseUnit(DwarfReadError),
    /// An index has a version that doesn't fit the input's units; the section's name, the version
    /// that fits, and the one found.
    IncompatibleIndexVersion(&'static str, u16, u16),
    /// An entry of the string offsets can't be read; its number.
    OffsetAtIndex(DwarfReadError, u64),
    /// A string can't be read; its offset.
    StrAtOffset(DwarfReadError, usize),
    /// An index can't be read; the section's name.
    ParseIndex(DwarfReadError, &'static str),
    /// A unit of an input package isn't in its index; the unit's identifier.
    UnitNotInIndex(u64),
    /// A row number in an index is past its rows; the row number.
    RowNotInIndex(DwarfReadError, u32),
    /// A section is there, and no index has its column.
    SectionNotInRow,
    /// A unit stands in a section whose address isn't 0; the unit's identifier.
    EmptyUnit(u64),
    /// An input package has a second `.debug_info.dwo`.
    MultipleDebugInfoSection,
    /// An input package has a second `.debug_types.dwo`.
    MultipleDebugTypesSection,
    /// A compilation unit has no identifier of a split unit.
    NotSplitUnit,
    /// A compilation unit is contained already; its identifier.
    DuplicateUnit(u64),
    /// A unit that an executable refers to isn't contained; its identifier.
    MissingReferencedUnit(u64),
    /// No input began a package.
    NoOutputObjectCreated,
    /// Inputs differ in byte order or encoding.
    MixedInputEncodings,
    /// Input or output failed.
    Io(io::Error),
    /// An ELF file can't be read.
    ObjectRead(ElfReadError),
    /// An ELF file can't be written.
    ObjectWrite(ElfWriteError),
    /// DWARF data can't be read.
    GimliRead(DwarfReadError),
    /// DWARF data can't be written.
    GimliWrite(DwarfWriteError),
    /// Memory ran out.
    Memory,
    /// A number is past its limit; what it counts or measures, and the number.
    NumberTooLarge(&'static str, u64),
    /// A unit's range is outside its section; the section's name and the unit's identifier.
    BadContribution(&'static str, u64),
    /// A section isn't part of the package format of the input's version; its name.
    SectionOutsideFormat(&'static str),
    /// A section stands twice where it may stand once; its name.
    RepeatedSection(&'static str),
    /// A range of the string offsets is malformed; its place.
    BadStringOffsets(u64),
    /// A range of the string offsets begins inside the one before it; its place.
    OverlappingStringOffsets(u64),
}

impl From<io::Error> for Error {
    ghost from_gives = { λ e error. error ≡ Io e };

    fn from(e: io::Error) -> Error {
        Error::Io(e)
    }
}

impl From<ElfReadError> for Error {
    ghost from_gives = { λ e error. error ≡ ObjectRead e };

    fn from(e: ElfReadError) -> Error {
        Error::ObjectRead(e)
    }
}

/// Want of memory is `Memory`, whoever met it.
impl From<ElfWriteError> for Error {
    ghost from_gives = { λ e error. error ≡ written_error e };

    fn from(e: ElfWriteError) -> Error {
        match e {
            ElfWriteError::Memory => Error::Memory,
            other => Error::ObjectWrite(other),
        }
    }
}

impl From<DwarfReadError> for Error {
    ghost from_gives = { λ e error. error ≡ GimliRead e };

    fn from(e: DwarfReadError) -> Error {
        Error::GimliRead(e)
    }
}

impl From<DwarfWriteError> for Error {
    ghost from_gives = { λ e error. error ≡ GimliWrite e };

    fn from(e: DwarfWriteError) -> Error {
        Error::GimliWrite(e)
    }
}

impl From<AllocError> for Error {
    ghost from_gives = { λ _ error. error ≡ Memory };

    fn from(_e: AllocError) -> Error {
        Error::Memory
    }
}

impl<T: Drop> From<AllocFailed<T>> for Error {
    ghost from_gives = { λ _ error. error ≡ Memory };

    fn from(_e: AllocFailed<T>) -> Error {
        Error::Memory
    }
}

/// Why an input could not be read.
#[derive(Debug, Drop)]
pub enum InputError {
    /// The file can't be read.
    Io(io::Error),
    /// Memory ran out.
    Memory,
}

/// What is to be done where an object that an executable refers to can't be read.
#[derive(Clone, Copy, Debug, PartialEq, Eq, Hash)]
pub enum MissingReferencedObjectBehaviour {
    /// It is passed over.
    Skip,
    /// It is an error.
    Error,
}

/// Want of memory is `Memory`, also where a read tells it by its kind.
impl From<io::Error> for InputError {
    ghost from_gives = { λ cause error. error ≡ input_error_of cause };

    fn from(cause: io::Error) -> InputError {
        match cause.kind() {
            io::ErrorKind::OutOfMemory => InputError::Memory,
            _ => InputError::Io(cause),
        }
    }
}

impl From<AllocError> for InputError {
    ghost from_gives = { λ _ error. error ≡ input.Memory };

    fn from(_e: AllocError) -> InputError {
        InputError::Memory
    }
}

/// An input that can't be read is `ReadInput`, and want of memory is `Memory`.
impl From<InputError> for Error {
    ghost from_gives = { λ e error. error ≡ input_error e };

    fn from(e: InputError) -> Error {
        match e {
            InputError::Io(cause) => Error::ReadInput(cause),
            InputError::Memory => Error::Memory,
        }
    }
}

impl MissingReferencedObjectBehaviour {
    /// Whether such an object is passed over.
    pub fn skip_missing(&self) -> bool
        ensures { IsTrue result ↔ (self.now ≡ MissingReferencedObjectBehaviour.Skip) }
    {
        matches!(self, MissingReferencedObjectBehaviour::Skip)
    }
}
