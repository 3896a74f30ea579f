//! What `pack` looks for in the bytes of an input, or changes of them, before they are packed, and
//! how inputs are named in notes.
#![tactic(auto)]

mod growth;
mod notes;
mod overlaps;
mod plain;
mod prefixes;
mod units;

pub use growth::{Growth, Repetitions};
pub use notes::{
    AbsentUnits, Lack, MEMBER_NAME_READ, cut_hint, note_absent, note_alone, note_before,
    note_reason, note_refused, note_twice_in, place_of, place_of_member, reason,
};
pub use overlaps::{has_compressed_overlap, has_inner_strings, has_overlap};
pub use plain::{Compression, PlainError, decompress, plain_of};
pub use prefixes::{Places, Prefixes};
pub use units::{Encodings, MacroWarnings, count_units, has_types_alone, type_names};
