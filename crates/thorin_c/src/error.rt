//! The numbers of the errors of packing.

ghost use Rattle.std.specs.Prelude.{◌≡◌};
ghost use Rattle.thorin_errors.specs.Errors.{error_of};
ghost use Rattle.thorin_c.specs.{Errors.number_of, Errors.Tells, Packing.TellsOfError};

use crate::types::ThorinReport;
use std::fmt::InlineText;
use thorin_errors::Error;

/// Writes an error's number and text, with a zero byte behind it.
pub(crate) fn tell(error: Error, report: &mut ThorinReport)
    ensures told { Tells (error_of error) report.new }
    ensures alone { TellsOfError report.old report.new }
{
    report.fault = number_of(&error);
    let text = InlineText::<255>::of(error);
    let bytes = text.as_str().as_bytes();
    let len = bytes.len();
    report.text[..len].copy_from_slice(bytes);
    report.text[len] = 0;
    report.text_size = len as u32;
}

/// The number of an error, from 1 on in the order of `Error`.
fn number_of(error: &Error) -> u32
    ensures { result ≡ number_of (error_of error.now) }
{
    match error {
        Error::ReadInput(_) => 1,
        Error::ParseFileKind(_) => 2,
        Error::ParseObjectFile(_) => 3,
        Error::InvalidInputKind => 4,
        Error::DecompressData(_) => 5,
        Error::NamelessSection(_, _) => 6,
        Error::RelocationWithInvalidSymbol(_, _) => 7,
        Error::MultipleRelocations(_, _) => 8,
        Error::UnsupportedRelocation(_, _) => 9,
        Error::MissingDwoName(_) => 10,
        Error::NoCompilationUnits => 11,
        Error::NoDie => 12,
        Error::TopLevelDieNotUnit => 13,
        Error::MissingRequiredSection(_) => 14,
        Error::ParseUnitAbbreviations(_) => 15,
        Error::ParseUnitHeader(_) => 16,
        Error::ParseUnit(_) => 17,
        Error::IncompatibleIndexVersion(_, _, _) => 18,
        Error::OffsetAtIndex(_, _) => 19,
        Error::StrAtOffset(_, _) => 20,
        Error::ParseIndex(_, _) => 21,
        Error::UnitNotInIndex(_) => 22,
        Error::RowNotInIndex(_, _) => 23,
        Error::SectionNotInRow => 24,
        Error::EmptyUnit(_) => 25,
        Error::MultipleDebugInfoSection => 26,
        Error::MultipleDebugTypesSection => 27,
        Error::NotSplitUnit => 28,
        Error::DuplicateUnit(_) => 29,
        Error::MissingReferencedUnit(_) => 30,
        Error::NoOutputObjectCreated => 31,
        Error::MixedInputEncodings => 32,
        Error::Io(_) => 33,
        Error::ObjectRead(_) => 34,
        Error::ObjectWrite(_) => 35,
        Error::GimliRead(_) => 36,
        Error::GimliWrite(_) => 37,
        Error::Memory => 38,
        Error::NumberTooLarge(_, _) => 39,
        Error::BadContribution(_, _) => 40,
        Error::SectionOutsideFormat(_) => 41,
        Error::RepeatedSection(_) => 42,
        Error::BadStringOffsets(_) => 43,
        Error::OverlappingStringOffsets(_) => 44,
    }
}
