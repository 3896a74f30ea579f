//! Reading the entries of units of DWARF data: abbreviations, root entries, attributes and their
//! strings.
#![tactic(auto)]

mod abbrev;
mod cache;
mod chains;
mod entry;
pub mod laws;
mod needed;
mod split;
mod value;
mod versions;

pub use abbrev::{Abbreviation, Abbreviations};
pub use cache::{AbbreviationCache, EntryNumber};
pub use dwp_base::Endianness;
pub use dwp_bytes::{
    Encoding, Format, ReadError, Reader, Relocate, Relocation, RelocationEntry, SliceReader,
    WriteError, string_at,
};
pub use dwp_units::{UnitHeader, UnitHeaders, UnitSection, UnitType};
pub use entry::{Attribute, Attributes, RootEntry, root};
pub use needed::number_read;
pub use split::SplitAttributes;
pub use value::{
    GNU_STR_INDEX, LINE_STRP, STRP, STRX, STRX1, STRX2, STRX3, STRX4, StringSections, attr_string,
};
