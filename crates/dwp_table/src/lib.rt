//! Names of units, and the hash tables of the indexes that look them up (DWARF 5, 7.3.5.3).
#![tactic(auto)]

mod column;
pub mod laws;
mod object;
mod row;
mod slots;

pub use column::{CONTRIBUTION_KINDS, column_of, kind_of_column};
pub use object::{Bucketable, DebugTypeSignature, DwarfObject, DwoId};
pub use row::{first_place, place_after, place_row};
pub use slots::slot_count;
