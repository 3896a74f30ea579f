//! The attributes of an entry that name its split object (DWARF 5, 3.1.2 and 7.5.4).

ghost use Rattle.dwp_dwarf.specs.Split as spec;
ghost use Rattle.std.specs.Prelude.{map, option_map, ◌≡◌};
ghost use Rattle.dwp_base.specs.Reading.{Answers};
ghost use Rattle.dwp_dwarf.specs.Attributes.{attribute_of, entry_of};
ghost use Rattle.dwp_dwarf.specs.{Declarations.specification_of, Entries.attributes};
ghost use Rattle.dwp_dwarf.specs.Split.{attributes_of, none_found, split_in, with_attribute};

use crate::abbrev::AttributeSpecification;
use crate::entry::{Attribute, RootEntry, read_attribute};
use dwp_bytes::{Encoding, Format, ReadError, Reader};

pub(crate) const DW_AT_COMP_DIR: u64 = 0x1b;

const DW_AT_STR_OFFSETS_BASE: u64 = 0x72;

pub(crate) const DW_AT_DWO_NAME: u64 = 0x76;

pub(crate) const DW_AT_GNU_DWO_NAME: u64 = 0x2130;

/// The attributes of an entry that name its split object, of each name the first (DWARF 5, 3.1.2
/// and 7.5.4; the GNU page DebugFission).
#[derive(Clone, Copy, Debug)]
pub struct SplitAttributes<R> {
    /// The object's name, by DWARF 5.
    pub dwo_name: Option<Attribute<R>>,
    /// The object's name, by GNU's extension of older versions.
    pub gnu_dwo_name: Option<Attribute<R>>,
    /// The directory that the unit was compiled in.
    pub comp_dir: Option<Attribute<R>>,
    /// The place in `.debug_str_offsets` that the first attribute of this name and of a form of a
    /// place names.
    pub str_offsets_base: Option<u64>,
}

impl<R: Reader> SplitAttributes<R> {
    fn new() -> SplitAttributes<R>
        ensures { attributes_of R.input result ≡ none_found }
    {
        SplitAttributes {
            dwo_name: None,
            gnu_dwo_name: None,
            comp_dir: None,
            str_offsets_base: None,
        }
    }

    /// Takes an attribute in where it is the first of its name.
    fn add(&mut self, attribute: Attribute<R>, format: Format)
        ensures { attributes_of R.input self.new ≡ with_attribute format
            (attributes_of R.input self.old) (attribute_of R.input attribute) }
    {
        match attribute.name {
            DW_AT_COMP_DIR => self.comp_dir = self.comp_dir.or(Some(attribute)),
            DW_AT_STR_OFFSETS_BASE => {
                self.str_offsets_base = self.str_offsets_base.or(attribute.section_offset(format));
            }
            DW_AT_DWO_NAME => self.dwo_name = self.dwo_name.or(Some(attribute)),
            DW_AT_GNU_DWO_NAME => self.gnu_dwo_name = self.gnu_dwo_name.or(Some(attribute)),
            _ => {}
        }
    }

    /// The attribute that names the split object: that of DWARF 5, else GNU's.
    pub fn object_name(&self) -> Option<Attribute<R>>
        ensures { option_map (attribute_of R.input) result
            ≡ spec.object_name (attributes_of R.input self.now) }
    {
        self.dwo_name.or(self.gnu_dwo_name)
    }
}

/// Those of an entry, up to the first error.
#[tactic(auto, using(crate::proofs::Values::after_first), unfolding(crate::specs::Split::split_in))]
pub(crate) fn split_read<R: Reader>(
    entry: RootEntry<R>,
    format: Format,
) -> Result<SplitAttributes<R>, ReadError>
    ensures { Answers (attributes_of R.input) result
        (split_in format (entry_of R.input entry).attributes) }
{
    let mut found = SplitAttributes::new();
    for attribute in entry.attributes {
        let attribute = attribute?;
        found.add(attribute, format);
    }
    Ok(found)
}

/// Those of an entry whose attributes are a list, up to the first error.
#[tactic(auto, unfolding(crate::specs::Split::split_in))]
pub(crate) fn split_listed<R: Reader>(
    list: &[AttributeSpecification],
    encoding: Encoding,
    mut values: R,
) -> Result<SplitAttributes<R>, ReadError>
    ensures { Answers (attributes_of R.input) result (split_in encoding.format
        (attributes encoding (map specification_of list.now) (R.input values))) }
{
    let mut found = SplitAttributes::new();
    for specification in list {
        let attribute = read_attribute(&mut values, *specification, encoding)?;
        found.add(attribute, encoding.format);
    }
    Ok(found)
}
