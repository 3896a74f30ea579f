//! Which unit a unit of a split object or of an executable is (DWARF 5, 7.5.1; the
//! GNU page DebugFission).
#![tactic(auto)]

mod identity;
mod ranges;

pub use identity::{dwo_identifier_in_range, dwo_identifier_of_unit, dwo_identifier_remembering};
pub use ranges::RangeTables;
