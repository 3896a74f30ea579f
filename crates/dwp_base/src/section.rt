//! The kinds of sections of split DWARF, and contributions to them (DWARF 5, 7.3.5).

ghost use Rattle.std.specs.Prelude.{◌≡◌};
ghost use Rattle.dwp_base.specs.Sections.{name_of, compressed_name_of, is_named, kind_named};
ghost use Rattle.dwp_base.specs.Sections.{rank_of, same_kind, short_name, kind_of_short_name};

use std::fmt::{Debug, Formatter, Write};

/// The sections of a split DWARF object and of a package: ten that a unit has a contribution to,
/// the strings and the two indexes (DWARF 5, 7.3.5; the GNU page DebugFissionDWP).
#[derive(Clone, Copy, Debug, PartialEq, Eq, Hash)]
pub enum SectionKind {
    /// Compilation units, and in DWARF 5 type units.
    Info,
    /// Type units before DWARF 5.
    Types,
    /// Abbreviations.
    Abbrev,
    /// Line tables.
    Line,
    /// Location lists before DWARF 5.
    Loc,
    /// Location lists of DWARF 5.
    Loclists,
    /// Range lists of DWARF 5.
    Rnglists,
    /// Offsets of strings.
    StrOffsets,
    /// Macros before DWARF 5.
    Macinfo,
    /// Macros of DWARF 5, and GNU's before it.
    Macro,
    /// Strings.
    Str,
    /// The index of compilation units.
    CuIndex,
    /// The index of type units.
    TuIndex,
}

impl SectionKind {
    /// Each kind, those with contributions first.
    pub const ALL: [SectionKind; 13] = [
        SectionKind::Info,
        SectionKind::Types,
        SectionKind::Abbrev,
        SectionKind::Line,
        SectionKind::Loc,
        SectionKind::Loclists,
        SectionKind::Rnglists,
        SectionKind::StrOffsets,
        SectionKind::Macinfo,
        SectionKind::Macro,
        SectionKind::Str,
        SectionKind::CuIndex,
        SectionKind::TuIndex,
    ];

    /// Where the kind stands among `ALL`.
    pub fn rank(self) -> u8
        ensures { result ≡ rank_of self }
    {
        self as u8
    }

    /// Whether two kinds are the same, as `==` says.
    pub fn is(self, other: SectionKind) -> bool
        ensures { result ≡ same_kind self other }
    {
        self.rank() == other.rank()
    }

    /// The section's name in a split object or a package.
    pub fn name(self) -> &'static str
        ensures { result.now ≡ name_of self }
    {
        match self {
            SectionKind::Info => ".debug_info.dwo",
            SectionKind::Types => ".debug_types.dwo",
            SectionKind::Abbrev => ".debug_abbrev.dwo",
            SectionKind::Line => ".debug_line.dwo",
            SectionKind::Loc => ".debug_loc.dwo",
            SectionKind::Loclists => ".debug_loclists.dwo",
            SectionKind::Rnglists => ".debug_rnglists.dwo",
            SectionKind::StrOffsets => ".debug_str_offsets.dwo",
            SectionKind::Macinfo => ".debug_macinfo.dwo",
            SectionKind::Macro => ".debug_macro.dwo",
            SectionKind::Str => ".debug_str.dwo",
            SectionKind::CuIndex => ".debug_cu_index",
            SectionKind::TuIndex => ".debug_tu_index",
        }
    }

    /// The older name of the section where its content is compressed, `.zdebug_` in front.
    pub fn compressed_name(self) -> &'static str
        ensures { result.now ≡ compressed_name_of self }
    {
        match self {
            SectionKind::Info => ".zdebug_info.dwo",
            SectionKind::Types => ".zdebug_types.dwo",
            SectionKind::Abbrev => ".zdebug_abbrev.dwo",
            SectionKind::Line => ".zdebug_line.dwo",
            SectionKind::Loc => ".zdebug_loc.dwo",
            SectionKind::Loclists => ".zdebug_loclists.dwo",
            SectionKind::Rnglists => ".zdebug_rnglists.dwo",
            SectionKind::StrOffsets => ".zdebug_str_offsets.dwo",
            SectionKind::Macinfo => ".zdebug_macinfo.dwo",
            SectionKind::Macro => ".zdebug_macro.dwo",
            SectionKind::Str => ".zdebug_str.dwo",
            SectionKind::CuIndex => ".zdebug_cu_index",
            SectionKind::TuIndex => ".zdebug_tu_index",
        }
    }

    /// The section's name in short, as a command line has it: `info` for `.debug_info.dwo`.
    pub fn short_name(self) -> &'static str
        ensures { result.now ≡ short_name self }
    {
        match self {
            SectionKind::Info => "info",
            SectionKind::Types => "types",
            SectionKind::Abbrev => "abbrev",
            SectionKind::Line => "line",
            SectionKind::Loc => "loc",
            SectionKind::Loclists => "loclists",
            SectionKind::Rnglists => "rnglists",
            SectionKind::StrOffsets => "str_offsets",
            SectionKind::Macinfo => "macinfo",
            SectionKind::Macro => "macro",
            SectionKind::Str => "str",
            SectionKind::CuIndex => "cu_index",
            SectionKind::TuIndex => "tu_index",
        }
    }

    /// The kind of section that has a short name.
    pub fn of_short_name(name: &str) -> Option<SectionKind>
        ensures { result ≡ kind_of_short_name name.now }
    {
        SectionKind::ALL
            .iter()
            .copied()
            .find(|kind| name == kind.short_name())
    }

    /// Whether a name is one of the two spellings of this section's.
    pub fn is_named(self, name: &str) -> bool
        ensures { result ≡ is_named name.now self }
    {
        name == self.name() || name == self.compressed_name()
    }

    /// The kind of section that a name belongs to, in either spelling.
    pub fn of_name(name: &str) -> Option<SectionKind>
        ensures { result ≡ kind_named name.now }
    {
        SectionKind::ALL
            .iter()
            .copied()
            .find(|kind| kind.is_named(name))
    }
}

/// Where a contribution begins in its section, in bytes.
#[derive(Clone, Copy, PartialEq, Eq, Hash)]
pub struct ContributionOffset(pub u64);

impl Debug for ContributionOffset {
    fn fmt<W: Write>(&self, f: &mut Formatter<W>) -> std::fmt::Result {
        write!(f, "ContributionOffset({:#x})", self.0)
    }
}

/// A unit's part of a section: its place and its size, both in bytes.
#[derive(Clone, Copy, Debug, PartialEq, Eq, Hash)]
pub struct Contribution {
    /// Where it begins.
    pub offset: ContributionOffset,
    /// How many bytes it has.
    pub size: u64,
}
