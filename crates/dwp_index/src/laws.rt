//! What packages give, and what a file of given sections is, as laws.
#![tactic(auto, using(crate::proofs::Packages::laws, crate::proofs::UnitBytes::units_alone, crate::proofs::UnitBytes::encoding_anywhere))]

ghost use Rattle.std.specs.Prelude.{length, List, Option, slice_range, [], ℕ, ◌+◌, ◌<◌, ◌≡◌, ◌≤◌};
ghost use Rattle.std.specs.Prelude.{false, None, Ok, slice_get, Some};
ghost use Rattle.dwp_index.specs.Package.{found_by_row, found_counted, index_in_section, row_bytes};
ghost use Rattle.dwp_index.specs.Package.{encoding_in, index_for, Package, package_of};
ghost use Rattle.dwp_index.specs.Holding.{HoldsInOrder, HoldsPackage, package_with, sections_of};
ghost use Rattle.dwp_index.specs.Holding.{HasContent, held_of};
ghost use Rattle.std.specs.List.Sorted.{IsPermutation};
ghost use Rattle.dwp_base.specs.{declared.section.Contribution.Contribution, Sections.kind_named};
ghost use Rattle.dwp_base.specs.{declared.section.SectionKind.SectionKind, Sections.same_kind};
ghost use Rattle.dwp_base.specs.{declared.endian.Endianness.Endianness, Sections.name_of};
ghost use Rattle.dwp_elf_read.specs.Elf.{Elf, SectionMeaning};
ghost use Rattle.dwp_bytes.specs.{declared.encoding.Encoding.Encoding, Input.section};
ghost use Rattle.dwp_units.specs.Units.{Unit, unit_bytes, units};
ghost use Rattle.dwp_units.specs.declared.unit.UnitSection.{UnitSection};
ghost use Rattle.dwp_table.specs.{declared.object.DwarfObject.DwarfObject, Table.IsIndex};
ghost use Rattle.dwp_index.specs.Contents.{content, is_of_kind, Sections};
ghost use Rattle.dwp_index.specs.Index.{Index, range_in, Ranges};
ghost use Rattle.dwp_index.specs.{Entries.entries_from, IndexBytes.index_of, Used.used_in};
ghost use Rattle.dwp_index.specs.Finding.{GivesWithin, HasIndex, IsNotNamed, IsUnitOf, unit_of};
ghost use Rattle.dwp_index.specs.Naming.{entries_of, IsIndexOfIds, numbered};

/// The law of packages: where the index of a kind is one of distinct identifiers, the unit of each
/// is found, after at most as many slots as its row's number, if its ranges lie inside their
/// sections and its header can be read; every other is absent, after at most one slot more than
/// there are identifiers. Where there is no index it is absent after none. It does nothing.
pub fn packages_find_exactly()
    ensures present { (pack : Package) (object : DwarfObject) (ids : List ℕ) (index : Index) (r : ℕ)
        (row : Ranges) (encoding : Encoding)
        → HasIndex pack object ids index → IsUnitOf pack object ids index r row encoding
        → GivesWithin pack object (Some (unit_of pack object (r + 1) row encoding)) (r + 1) }
    ensures absent { (pack : Package) (object : DwarfObject) (ids : List ℕ) (index : Index)
        → HasIndex pack object ids index
        → IsNotNamed object ids → GivesWithin pack object None (length ids + 1) }
    ensures no_index { (pack : Package) (object : DwarfObject) → index_for pack object ≡ None
        → GivesWithin pack object None 0 }
{}

/// The law of rows: looking a unit up is looking its row up, and then reading the unit of that row.
/// It does nothing.
pub fn units_are_found_by_their_rows()
    ensures { (pack : Package) (object : DwarfObject) → found_counted pack object
        ≡ found_by_row pack object }
{}

/// The law of parts: the bytes of a row's range are that part of the section, and none where it has
/// no range there. It does nothing.
pub fn ranges_are_parts()
    ensures part { (contents : Sections) (row : Ranges) (kind : SectionKind) (range : Contribution)
        → range_in row kind ≡ Some range
        → range.offset.0 + range.size ≤ length (content contents kind) → row_bytes contents row kind
        ≡ slice_range (content contents kind) range.offset.0 (range.offset.0 + range.size) }
    ensures absent { (contents : Sections) (row : Ranges) (kind : SectionKind)
        → range_in row kind ≡ None → row_bytes contents row kind ≡ [] }
{}

/// The law of units: a unit of a section is read from its own bytes alone, with the same encoding;
/// one of version 5 also where it stands in the other section. It does nothing.
pub fn units_are_read_alone()
    ensures alone { (order : Endianness) (place : UnitSection) (bytes : List ℕ)
        (k : ℕ) (unit : Unit) → slice_get (units place (section order bytes)) k ≡ Some (Ok unit)
        → encoding_in order place (unit_bytes unit) ≡ Ok unit.encoding }
    ensures anywhere { (order : Endianness) (place other : UnitSection) (bytes : List ℕ)
        (encoding : Encoding) → encoding.version ≡ 5 → encoding_in order place bytes ≡ Ok encoding
        → encoding_in order other bytes ≡ Ok encoding }
{}

/// The law of names: the used slots of an index of distinct identifiers name each of them once,
/// with the number of its row; so do the units of a package. It does nothing.
pub fn units_are_named_once()
    ensures index { (ids : List ℕ) (index : Index) → IsIndex ids index.signatures index.rows
        → IsPermutation (numbered 1 ids) (used_in index 0) }
    ensures package { (compilations types : Option Index) (ids signatures : List ℕ)
        → IsIndexOfIds compilations ids → IsIndexOfIds types signatures
        → IsPermutation (entries_of ids signatures) (entries_from compilations types 0 0) }
{}

/// The law of files: a file whose sections hold contents as they stand is read as the package of
/// these contents, with the indexes that stand in them. A section of another name, of the name of
/// another kind or of no bytes isn't of a kind. It does nothing.
pub fn contents_are_read()
    ensures package { (bytes : List ℕ) (file : Elf) (held : SectionKind → List ℕ)
        (compilations types : Option Index) → HoldsPackage bytes file held compilations types
        → package_of bytes ≡ Ok (package_with file.order held compilations types) }
    ensures held { (held : SectionKind → List ℕ) (kind : SectionKind)
        → content (sections_of held) kind ≡ held kind }
    ensures index { (order : Endianness) (bytes : List ℕ) (index : Index) → 0 < length bytes
        → index_of order bytes ≡ Ok index → index_in_section order bytes ≡ Ok (Some index) }
    ensures no_index { (order : Endianness) (bytes : List ℕ) → bytes ≡ []
        → index_in_section order bytes ≡ Ok None }
    ensures in_order { (sections : List SectionMeaning) (contents : List (SectionKind × List ℕ))
        → HoldsInOrder sections contents
        → (kind : SectionKind) → HasContent sections kind (held_of kind contents) }
    ensures other { (section : SectionMeaning) (kind other : SectionKind) → section.name
        ≡ Some (name_of other) → same_kind other kind ≡ false → is_of_kind kind section ≡ false }
    ensures foreign { (section : SectionMeaning) (kind : SectionKind) (name : List ℕ)
        → section.name ≡ Some name → kind_named name ≡ None → is_of_kind kind section ≡ false }
    ensures empty { (section : SectionMeaning) (kind : SectionKind) → section.size ≡ 0
        → is_of_kind kind section ≡ false }
{}
