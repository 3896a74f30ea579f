//! The columns of an index (DWARF 5, 7.3.5.3, Table 7.1; the GNU page DebugFissionDWP).

ghost use Rattle.std.specs.Prelude.{◌≡◌};
ghost use Rattle.dwp_table.specs.Columns.{column_of, kind_of_column};

use dwp_base::SectionKind;

/// The sections that a unit may have a contribution to, in the order of their columns as written.
pub const CONTRIBUTION_KINDS: [SectionKind; 10] = [
    SectionKind::Info,
    SectionKind::Types,
    SectionKind::Abbrev,
    SectionKind::Line,
    SectionKind::Loc,
    SectionKind::Loclists,
    SectionKind::Rnglists,
    SectionKind::StrOffsets,
    SectionKind::Macinfo,
    SectionKind::Macro,
];

/// The numbers of columns in an index of DWARF 5 (7.3.5.3, Table 7.1).
const DW_SECT_INFO: u32 = 1;

const DW_SECT_ABBREV: u32 = 3;

const DW_SECT_LINE: u32 = 4;

const DW_SECT_LOCLISTS: u32 = 5;

const DW_SECT_STR_OFFSETS: u32 = 6;

const DW_SECT_MACRO: u32 = 7;

const DW_SECT_RNGLISTS: u32 = 8;

/// The numbers of columns in an index of the GNU form (the GNU page DebugFissionDWP).
const GNU_SECT_INFO: u32 = 1;

const GNU_SECT_TYPES: u32 = 2;

const GNU_SECT_ABBREV: u32 = 3;

const GNU_SECT_LINE: u32 = 4;

const GNU_SECT_LOC: u32 = 5;

const GNU_SECT_STR_OFFSETS: u32 = 6;

const GNU_SECT_MACINFO: u32 = 7;

const GNU_SECT_MACRO: u32 = 8;

/// The number of a section's column in an index of that version, 5 or else 2; None where that
/// version has no such column (DWARF 5, 7.3.5.3, Table 7.1).
pub fn column_of(version: u16, kind: SectionKind) -> Option<u32>
    ensures { result ≡ column_of version kind }
{
    if version == 5 {
        match kind {
            SectionKind::Info => Some(DW_SECT_INFO),
            SectionKind::Abbrev => Some(DW_SECT_ABBREV),
            SectionKind::Line => Some(DW_SECT_LINE),
            SectionKind::Loclists => Some(DW_SECT_LOCLISTS),
            SectionKind::StrOffsets => Some(DW_SECT_STR_OFFSETS),
            SectionKind::Macro => Some(DW_SECT_MACRO),
            SectionKind::Rnglists => Some(DW_SECT_RNGLISTS),
            _ => None,
        }
    } else {
        match kind {
            SectionKind::Info => Some(GNU_SECT_INFO),
            SectionKind::Types => Some(GNU_SECT_TYPES),
            SectionKind::Abbrev => Some(GNU_SECT_ABBREV),
            SectionKind::Line => Some(GNU_SECT_LINE),
            SectionKind::Loc => Some(GNU_SECT_LOC),
            SectionKind::StrOffsets => Some(GNU_SECT_STR_OFFSETS),
            SectionKind::Macinfo => Some(GNU_SECT_MACINFO),
            SectionKind::Macro => Some(GNU_SECT_MACRO),
            _ => None,
        }
    }
}

/// The section whose column has that number in an index of that version, 5 or else 2.
#[inline(always)]
pub fn kind_of_column(version: u16, number: u32) -> Option<SectionKind>
    ensures { result ≡ kind_of_column version number }
{
    if version == 5 {
        match number {
            DW_SECT_INFO => Some(SectionKind::Info),
            DW_SECT_ABBREV => Some(SectionKind::Abbrev),
            DW_SECT_LINE => Some(SectionKind::Line),
            DW_SECT_LOCLISTS => Some(SectionKind::Loclists),
            DW_SECT_STR_OFFSETS => Some(SectionKind::StrOffsets),
            DW_SECT_MACRO => Some(SectionKind::Macro),
            DW_SECT_RNGLISTS => Some(SectionKind::Rnglists),
            _ => None,
        }
    } else {
        match number {
            GNU_SECT_INFO => Some(SectionKind::Info),
            GNU_SECT_TYPES => Some(SectionKind::Types),
            GNU_SECT_ABBREV => Some(SectionKind::Abbrev),
            GNU_SECT_LINE => Some(SectionKind::Line),
            GNU_SECT_LOC => Some(SectionKind::Loc),
            GNU_SECT_STR_OFFSETS => Some(SectionKind::StrOffsets),
            GNU_SECT_MACINFO => Some(SectionKind::Macinfo),
            GNU_SECT_MACRO => Some(SectionKind::Macro),
            _ => None,
        }
    }
}
