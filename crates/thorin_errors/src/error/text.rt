//! The texts of errors.
#![tactic(auto, using(crate::proofs::Hex::hex8_written))]

ghost use Rattle.std.specs.Prelude.{Some, ◌++◌};
ghost use Rattle.std.specs.Fmt.{DisplaysOnOk};
ghost use Rattle.thorin_errors.specs.Text.{error_text, hex8};

use super::Error;
use std::fmt;

/// Writes a number, in at least eight hexadecimal digits, between two texts.
fn write_unit<W: fmt::Write>(
    f: &mut fmt::Formatter<W>,
    before: &str,
    unit: u64,
    after: &str,
) -> fmt::Result
    ensures { DisplaysOnOk W.write_str_gives f.old result
        (Some (before.now ++ (hex8 unit ++ after.now))) f.new }
{
    write!(f, "{before}{unit:08x}{after}")
}

impl fmt::Display for Error {
    ghost use Rattle.thorin_errors.specs.Errors.{error_of};

    ghost output = { λ e. error_text (error_of e) };

    fn fmt<W: fmt::Write>(&self, f: &mut fmt::Formatter<W>) -> fmt::Result {
        match self {
            Error::ReadInput(_) => f.write_str("Failed to read input file"),
            Error::ParseFileKind(_) => f.write_str("Failed to parse input file kind"),
            Error::ParseObjectFile(_) => f.write_str("Failed to parse input object file"),
            Error::InvalidInputKind => f.write_str("Input is not an archive or elf object"),
            Error::DecompressData(_) => f.write_str("Failed to decompress compressed section"),
            Error::NamelessSection(_, place) => {
                write!(f, "Section without name at offset 0x{place:08x}")
            }
            Error::RelocationWithInvalidSymbol(section, place) => write!(
                f,
                "Relocation with invalid symbol for section `{section}` at offset 0x{place:08x}"
            ),
            Error::MultipleRelocations(section, place) => write!(
                f,
                "Multiple relocations for section `{section}` at offset 0x{place:08x}"
            ),
            Error::UnsupportedRelocation(section, place) => write!(
                f,
                "Unsupported relocation for section {section} at offset 0x{place:08x}"
            ),
            _ => self.write_unit_text(f),
        }
    }
}

impl Error {
    ghost use Rattle.std.specs.Fmt.{DisplaysOnOk};
    ghost use Rattle.thorin_errors.specs.Errors.{error_of};
    ghost use Rattle.thorin_errors.specs.Text.{unit_text, index_text, section_text};

    /// The texts of errors of units.
    fn write_unit_text<W: fmt::Write>(&self, f: &mut fmt::Formatter<W>) -> fmt::Result
        ensures { DisplaysOnOk W.write_str_gives f.old result
            (unit_text (error_of self.now)) f.new }
    {
        match self {
            Error::MissingDwoName(unit) => {
                write!(f, "Missing path attribute to DWARF object (0x{unit:08x})")
            }
            Error::NoCompilationUnits => f.write_str("Input object has no compilation units"),
            Error::NoDie => f.write_str(
                "No top-level debugging information entry in compilation/type unit",
            ),
            Error::TopLevelDieNotUnit => f.write_str(
                "Top-level debugging information entry is not a compilation/type unit",
            ),
            Error::ParseUnitAbbreviations(_) => f.write_str("Failed to parse unit abbreviations"),
            Error::ParseUnitHeader(_) => f.write_str("Failed to parse unit header"),
            Error::ParseUnit(_) => f.write_str("Failed to parse unit"),
            Error::EmptyUnit(unit) => {
                write_unit(f, "Unit 0x", *unit, " in input DWARF object with no data")
            }
            Error::NotSplitUnit => f.write_str(
                "Regular compilation unit in object (missing dwo identifier)",
            ),
            Error::DuplicateUnit(unit) => {
                write!(f, "Duplicate split compilation unit (0x{unit:08x})")
            }
            Error::MissingReferencedUnit(unit) => {
                write_unit(
                    f,
                    "Unit 0x",
                    *unit,
                    " referenced by executable was not found",
                )
            }
            _ => self.write_index_text(f),
        }
    }

    /// The texts of errors of indexes and string offsets.
    fn write_index_text<W: fmt::Write>(&self, f: &mut fmt::Formatter<W>) -> fmt::Result
        ensures { DisplaysOnOk W.write_str_gives f.old result
            (index_text (error_of self.now)) f.new }
    {
        match self {
            Error::IncompatibleIndexVersion(section, expected, found) => write!(
                f,
                "Incompatible `{section}` index version: \
                 found version {found}, expected version {expected}"
            ),
            Error::OffsetAtIndex(_, index) => write!(
                f,
                "Read offset at index {index} of `.debug_str_offsets.dwo` section"
            ),
            Error::StrAtOffset(_, offset) => write!(
                f,
                "Read string at offset 0x{offset:08x} of `.debug_str.dwo` section"
            ),
            Error::ParseIndex(_, section) => {
                write!(f, "Failed to parse `{section}` index section")
            }
            Error::UnitNotInIndex(unit) => {
                write_unit(
                    f,
                    "Unit 0x",
                    *unit,
                    " from input package is not in its index",
                )
            }
            Error::RowNotInIndex(_, row) => write!(
                f,
                "Row {row} found in index's hash table not present in index"
            ),
            Error::SectionNotInRow => f.write_str("Section not found in unit's row in index"),
            Error::BadStringOffsets(place) => {
                write!(f, "Bad string offsets at offset 0x{place:08x}")
            }
            Error::OverlappingStringOffsets(place) => {
                write!(f, "Overlapping string offsets at offset 0x{place:08x}")
            }
            _ => self.write_section_text(f),
        }
    }

    /// The texts of errors of sections and of what a package is made of, and of causes.
    fn write_section_text<W: fmt::Write>(&self, f: &mut fmt::Formatter<W>) -> fmt::Result
        ensures { DisplaysOnOk W.write_str_gives f.old result
            (section_text (error_of self.now)) f.new }
    {
        match self {
            Error::MissingRequiredSection(section) => {
                write!(f, "Input object missing required section `{section}`")
            }
            Error::MultipleDebugInfoSection => f.write_str("Multiple `.debug_info.dwo` sections"),
            Error::MultipleDebugTypesSection => f.write_str(
                "Multiple `.debug_types.dwo` sections in a package",
            ),
            Error::NoOutputObjectCreated => f.write_str("No output object was created from inputs"),
            Error::MixedInputEncodings => f.write_str("Input objects haved mixed encodings"),
            Error::Io(cause) => write!(f, "{cause}"),
            Error::ObjectRead(cause) => write!(f, "{cause}"),
            Error::ObjectWrite(cause) => write!(f, "{cause}"),
            Error::GimliRead(cause) => write!(f, "{cause}"),
            Error::GimliWrite(cause) => write!(f, "{cause}"),
            Error::Memory => f.write_str("Out of memory"),
            Error::NumberTooLarge(what, value) => write!(f, "Number too large: {what} is {value}"),
            Error::BadContribution(section, unit) => write!(
                f,
                "Bad contribution of unit 0x{unit:08x} to section {section}"
            ),
            Error::SectionOutsideFormat(section) => {
                write!(f, "Section {section} is not part of the package format")
            }
            Error::RepeatedSection(section) => write!(f, "Repeated section {section}"),
            _ => Ok(()),
        }
    }
}
