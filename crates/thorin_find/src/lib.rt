//! The commands `find` and `list`: a unit of a package looked up, and all its units in lines or in
//! columns, with their names and sizes.
#![tactic(auto)]

mod files;
mod finding;
mod listing;
mod names;
mod sizes;

pub use files::{FileReader, HostReader, PackageKind, Unread, has_no_index, kind_of, read_named};
pub use finding::{
    FindForm, FindWords, find_by, put_json_unit, put_object, short_kind, string_count,
};
pub use listing::{ListForm, entries_by_row, list_by};
pub use names::header_of;
