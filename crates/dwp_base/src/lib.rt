//! What the crates of the DWARF formats share: file classes, byte orders, section kinds and
//! contributions.
#![tactic(auto)]

mod by_kind;
mod class;
mod endian;
mod section;

pub use by_kind::ByKind;
pub use class::Class;
pub use endian::Endianness;
pub use section::{Contribution, ContributionOffset, SectionKind};
