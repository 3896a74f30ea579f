//! Finished packages as inputs of the builder: rows by place, and their string offsets.
#![tactic(auto)]

pub mod laws;
mod packaged_offsets;
mod row_places;

pub use packaged_offsets::remap_packaged_offsets;
pub use row_places::RowPlaces;
