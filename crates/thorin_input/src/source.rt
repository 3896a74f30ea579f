//! An input whose sections, encoding and indexes are known; and where a unit's contribution to a
//! section of it comes to lie: its row is sought in the index by its identifier (DWARF 5, 7.3.5.3).

ghost use Rattle.std.specs.Prelude.{◌≡◌, ◌+◌, ◌<◌, ◌^◌};
ghost use Rattle.std.specs.Option.{ForSome, option_copied};
ghost use Rattle.dwp_table.specs.Objects.{identifier_of};
ghost use Rattle.thorin_errors.specs.Answers.{Gives};
ghost use Rattle.thorin_input.specs.Adjusting as adjusting;
ghost use Rattle.thorin_input.specs.Adjusting.{GivesExactly, adjusted, other_index, own_index};
ghost use Rattle.thorin_input.specs.Indexes as spec;
ghost use Rattle.thorin_input.specs.Used.{first};
ghost use Rattle.thorin_input.specs.View as view;

use crate::object::InputObject;
use dwp_base::{Contribution, ContributionOffset, SectionKind};
use dwp_dwarf::Encoding;
use dwp_index::UnitIndex;
use dwp_table::{Bucketable, DwarfObject};
use std::marker::Model;
use thorin_errors::Error;

/// The indexes of an input: of a finished package at least one, of a plain object none.
#[derive(Drop)]
pub struct Indexes<'a> {
    /// The index of compilation units.
    pub compilations: Option<UnitIndex<'a>>,
    /// The index of type units.
    pub types: Option<UnitIndex<'a>>,
}

/// An input whose sections, encoding and indexes are known.
#[derive(Drop)]
pub struct Source<'a> {
    /// Its sections.
    pub object: InputObject<'a>,
    /// The encoding of its first unit.
    pub encoding: Encoding,
    /// Its indexes.
    pub indexes: Indexes<'a>,
}

/// The index that the first section of a kind is; none where there is no such section.
#[tactic(auto, unfolding(crate::specs::Indexes::index_in))]
fn index_in<'a>(object: &InputObject<'a>, kind: SectionKind) -> Result<Option<UnitIndex<'a>>, Error>
    ensures { Gives (λ index. index) result (spec.index_in (view.object object.now).order kind
        (first kind (view.object object.now).sections)) }
{
    let bytes = object.first(kind);
    if bytes.is_empty() {
        return Ok(None);
    }
    match UnitIndex::parse(bytes, object.order) {
        Ok(index) => Ok(Some(index)),
        Err(e) => Err(Error::ParseIndex(e, kind.name())),
    }
}

/// `IncompatibleIndexVersion` where an index has a version that doesn't go with the encoding.
fn test_version(
    encoding: Encoding,
    kind: SectionKind,
    index: &Option<UnitIndex<'_>>,
) -> Result<(), Error>
    ensures { Gives (λ _. tt) result (spec.version_test encoding kind index.now) }
{
    match index {
        Some(index) if !encoding.is_compatible_dwarf_package_index_version(index.version()) => {
            let expected = encoding.dwarf_package_index_version();
            Err(Error::IncompatibleIndexVersion(kind.name(), expected, index.version()))
        }
        _ => Ok(()),
    }
}

impl<'a> Indexes<'a> {
    /// The indexes of an input. Errors: `ParseIndex` of each, then `IncompatibleIndexVersion` of
    /// each, the compilation index first.
    #[tactic(auto, unfolding(crate::specs::Indexes::indexes_of))]
    pub fn read(object: &InputObject<'a>, encoding: Encoding) -> Result<Indexes<'a>, Error>
        ensures { Gives view.indexes result (spec.indexes_of (view.object object.now) encoding) }
    {
        let compilations = index_in(object, SectionKind::CuIndex)?;
        let types = index_in(object, SectionKind::TuIndex)?;
        test_version(encoding, SectionKind::CuIndex, &compilations)?;
        test_version(encoding, SectionKind::TuIndex, &types)?;
        Ok(Indexes {
            compilations,
            types,
        })
    }

    /// Whether the input is a finished package: it has an index.
    pub fn is_package(&self) -> bool
        ensures { result ≡ spec.is_package (view.indexes self.now) }
    {
        self.compilations.is_some() || self.types.is_some()
    }

    /// The row number that looking a unit up in the index of its kind gives.
    pub fn looked_up(&self, name: DwarfObject) -> Option<u32>
        ensures { result
            ≡ spec.looked_up (spec.index_for (view.indexes self.now) name) (identifier_of name) }
    {
        let index = match name {
            DwarfObject::Compilation(_) => &self.compilations,
            DwarfObject::TypeUnit(_) => &self.types,
        };
        index.as_ref()?.find(name.index())
    }
}

/// Tells where a unit's contribution to one section of an input comes to lie in the output. In an
/// input without an index it is the whole section; else it is the range of the unit's row (DWARF 5,
/// 7.3.5.3).
#[derive(Drop)]
pub struct ContributionAdjustor<'i, 'a> {
    cu_index: Option<&'i UnitIndex<'a>>,
    tu_index: Option<&'i UnitIndex<'a>>,
    section: SectionKind,
}

impl<'i, 'a> Model for ContributionAdjustor<'i, 'a> {
    ghost use Rattle.thorin_input.specs.Adjusting.{Adjustor};

    ghost Value = { Adjustor };

    ghost use Rattle.thorin_input.specs.AdjustorFields.{indexes_in};

    ghost view = { indexes_in };
}

impl<'i, 'a> ContributionAdjustor<'i, 'a> {
    /// The adjustor of a section of an input with these indexes.
    pub fn new(
        cu_index: Option<&'i UnitIndex<'a>>,
        tu_index: Option<&'i UnitIndex<'a>>,
        section: SectionKind,
    ) -> ContributionAdjustor<'i, 'a>
        ensures { result ≡ record {
          compilation = option_copied cu_index.entry;
          types = option_copied tu_index.entry;
          section = section;
        } }
    {
        ContributionAdjustor {
            cu_index,
            tu_index,
            section,
        }
    }

    /// The unit's contribution to the section in the output. `whole` says where the input's whole
    /// section lies there; it is None where the input lacks the section. Without an index the
    /// answer is `whole` itself. Else it is the range of the unit's row, moved by the place where
    /// `whole` begins. It is None where the range has no bytes, and where the unit's index has no
    /// column for the section, unless that is an error (`SectionNotInRow`). Errors:
    /// `UnitNotInIndex` where the unit's index is missing, or doesn't name the unit;
    /// `RowNotInIndex` where a row number is past the rows; `BadContribution` where a range lies
    /// outside the section, or the input lacks the section; `SectionNotInRow` where the section is
    /// there and neither index has its column.
    pub fn adjust(
        &self,
        unit: DwarfObject,
        whole: Option<Contribution>,
    ) -> Result<Option<Contribution>, Error>
        requires { ForSome whole (λ c. c.offset.0 + c.size < 2 ^ 64) }
        ensures { GivesExactly result (adjusted self.now unit whole) }
    {
        let (own, _) = self.indexes_for(unit);
        let number = match own {
            Some(own) => own.find(unit.index()),
            None => None,
        };
        self.adjust_row(unit, number, whole)
    }

    /// What `adjust` answers, of a unit that was looked up before: `number` is that of its row in
    /// the index of its kind, and None where that index is missing, or doesn't name the unit. So a
    /// unit is looked up once for all sections of an input. Errors: those of `adjust`.
    #[tactic(auto, unfolding(crate::specs::Adjusting::adjusted, crate::specs::Adjusting::row_of, crate::specs::Adjusting::moved))]
    pub fn adjust_row(
        &self,
        unit: DwarfObject,
        number: Option<u32>,
        whole: Option<Contribution>,
    ) -> Result<Option<Contribution>, Error>
        requires number { number ≡ adjusting.looked_up (own_index self.now unit) (identifier_of unit) }
        requires whole { ForSome whole (λ c. c.offset.0 + c.size < 2 ^ 64) }
        ensures { GivesExactly result (adjusted self.now unit whole) }
    {
        if self.cu_index.is_none() && self.tu_index.is_none() {
            return Ok(whole);
        }
        let (own, other) = self.indexes_for(unit);
        let identifier = unit.index();
        let (Some(own), Some(number)) = (own, number) else {
            return Err(Error::UnitNotInIndex(identifier));
        };
        let row = match own.row(number) {
            Ok(row) => row,
            Err(error) => return Err(Error::RowNotInIndex(error, number)),
        };
        if own.has_column(self.section) {
            return match (row.range(self.section), whole) {
                (None, _) => Ok(None),
                (Some(range), Some(whole))
                    if range.size <= whole.size && range.offset.0 <= whole.size - range.size => {
                    Ok(Some(Contribution {
                        offset: ContributionOffset(whole.offset.0 + range.offset.0),
                        size: range.size,
                    }))
                }
                _ => Err(Error::BadContribution(self.section.name(), identifier)),
            };
        }
        match (other, whole) {
            (_, None) => Ok(None),
            (Some(other), _) if other.has_column(self.section) => Ok(None),
            _ => Err(Error::SectionNotInRow),
        }
    }

    /// The index of the units of a unit's kind, and that of the other kind.
    fn indexes_for(
        &self,
        unit: DwarfObject,
    ) -> (Option<&'i UnitIndex<'a>>, Option<&'i UnitIndex<'a>>)
        ensures own { option_copied result.0 ≡ own_index self.now unit }
        ensures other { option_copied result.1 ≡ other_index self.now unit }
    {
        match unit {
            DwarfObject::Compilation(_) => (self.cu_index, self.tu_index),
            DwarfObject::TypeUnit(_) => (self.tu_index, self.cu_index),
        }
    }
}
