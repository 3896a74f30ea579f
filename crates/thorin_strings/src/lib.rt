//! The strings of a package: the table of distinct strings, and string offsets rewritten into it.
#![tactic(auto)]

mod known;
pub mod laws;
mod offsets;
mod repeats;
mod table;
mod words;

pub use dwp_bytes::StringOffsets;
pub use dwp_strings::TableMark;
pub use repeats::Repeats;
pub use table::{PackageStringOffset, PackageStringTable};
