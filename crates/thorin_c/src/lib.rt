//! Packages of split DWARF for C, and for languages that call it: each export is a call of the
//! library, and states its clauses again. `include/thorin.h` declares them.
#![tactic(auto)]

mod decompressing;
mod error;
mod finding;
mod inside;
mod listing;
mod opened;
mod opening;
mod packing;
mod session;
mod skeletons;
mod status;
mod types;
mod units;
mod version;

pub use decompressing::thorin_decompress;
pub use finding::{thorin_content, thorin_find, thorin_find_each, thorin_find_rows, thorin_string};
pub use inside::{
    thorin_content_in, thorin_find_in, thorin_find_row_in, thorin_list_in, thorin_string_in,
};
pub use listing::{thorin_list, thorin_unit_count};
pub use opening::thorin_open;
pub use packing::{thorin_differing_types, thorin_pack};
pub use skeletons::thorin_skeletons;
pub use types::{
    ThorinBytes, ThorinLookup, ThorinName, ThorinPackage, ThorinRange, ThorinReport,
    ThorinSkeleton, ThorinUnit,
};
pub use version::{thorin_status_text, thorin_version};
