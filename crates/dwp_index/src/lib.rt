//! The indexes of a package of split DWARF, and reading a package by them (DWARF 5, 7.3.5; the
//! GNU page DebugFissionDWP).
#![tactic(auto)]

mod contents;
mod error;
pub mod laws;
mod package;
mod parsing;
mod unit;
mod unit_index;
mod units;

pub use contents::first_sections;
pub use dwp_table::{
    Bucketable, CONTRIBUTION_KINDS, DebugTypeSignature, DwarfObject, DwoId, column_of, first_place,
    kind_of_column, place_after, place_row, slot_count,
};
pub use error::PackageError;
pub use package::{PackageFile, read_index, read_row};
pub use unit::{PackagedUnit, encoding_in, kind_of, lies_inside, part_of, place_of};
pub use unit_index::{Row, UnitIndex};
pub use units::{UnitEntry, Units};
