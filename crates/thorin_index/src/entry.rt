//! The entries that an index is written of (DWARF 5, 7.3.5.3).

use dwp_base::{ByKind, Contribution, SectionKind};
use dwp_bytes::Encoding;
use dwp_table::{Bucketable, DwarfObject};

/// A unit's row in an index: how the unit is encoded, which unit it is, and its contribution to
/// each section, where it has one (DWARF 5, 7.3.5.3; the GNU page DebugFissionDWP).
#[derive(Clone, Copy, Debug, PartialEq, Eq, Hash)]
pub struct IndexEntry {
    /// The unit's encoding.
    pub encoding: Encoding,
    /// The unit.
    pub id: DwarfObject,
    /// Its contribution to `.debug_info.dwo`.
    pub debug_info: Option<Contribution>,
    /// Its contribution to `.debug_types.dwo`.
    pub debug_types: Option<Contribution>,
    /// Its contribution to `.debug_abbrev.dwo`.
    pub debug_abbrev: Option<Contribution>,
    /// Its contribution to `.debug_line.dwo`.
    pub debug_line: Option<Contribution>,
    /// Its contribution to `.debug_loc.dwo`.
    pub debug_loc: Option<Contribution>,
    /// Its contribution to `.debug_loclists.dwo`.
    pub debug_loclists: Option<Contribution>,
    /// Its contribution to `.debug_rnglists.dwo`.
    pub debug_rnglists: Option<Contribution>,
    /// Its contribution to `.debug_str_offsets.dwo`.
    pub debug_str_offsets: Option<Contribution>,
    /// Its contribution to `.debug_macinfo.dwo`.
    pub debug_macinfo: Option<Contribution>,
    /// Its contribution to `.debug_macro.dwo`.
    pub debug_macro: Option<Contribution>,
}

impl Bucketable for IndexEntry {
    ghost use Rattle.dwp_table.specs.Objects.{identifier_of};

    ghost identifier = { λ entry. identifier_of entry.id };

    fn index(&self) -> u64 {
        self.id.index()
    }
}

impl IndexEntry {
    ghost use Rattle.std.specs.Prelude.{◌≡◌, None};
    ghost use Rattle.dwp_base.specs.ByKind.{value_of, values_of};
    ghost use Rattle.thorin_index.specs.Entries.{contribution_to, entry_by};

    /// The entry of a unit that has these contributions. Those to sections that an index has no
    /// column for are left out.
    pub fn by_kind(
        encoding: Encoding,
        id: DwarfObject,
        contributions: &ByKind<Option<Contribution>>,
    ) -> IndexEntry
        ensures { result ≡ entry_by encoding id (value_of None (values_of contributions.now)) }
    {
        IndexEntry {
            encoding,
            id,
            debug_info: contributions.get(SectionKind::Info),
            debug_types: contributions.get(SectionKind::Types),
            debug_abbrev: contributions.get(SectionKind::Abbrev),
            debug_line: contributions.get(SectionKind::Line),
            debug_loc: contributions.get(SectionKind::Loc),
            debug_loclists: contributions.get(SectionKind::Loclists),
            debug_rnglists: contributions.get(SectionKind::Rnglists),
            debug_str_offsets: contributions.get(SectionKind::StrOffsets),
            debug_macinfo: contributions.get(SectionKind::Macinfo),
            debug_macro: contributions.get(SectionKind::Macro),
        }
    }

    /// The unit's contribution to a section; none to one that an index has no column for.
    pub fn contribution(&self, kind: SectionKind) -> Option<Contribution>
        ensures { result ≡ contribution_to kind self.now }
    {
        match kind {
            SectionKind::Info => self.debug_info,
            SectionKind::Types => self.debug_types,
            SectionKind::Abbrev => self.debug_abbrev,
            SectionKind::Line => self.debug_line,
            SectionKind::Loc => self.debug_loc,
            SectionKind::Loclists => self.debug_loclists,
            SectionKind::Rnglists => self.debug_rnglists,
            SectionKind::StrOffsets => self.debug_str_offsets,
            SectionKind::Macinfo => self.debug_macinfo,
            SectionKind::Macro => self.debug_macro,
            SectionKind::Str | SectionKind::CuIndex | SectionKind::TuIndex => None,
        }
    }
}
