//! Writing an index (DWARF 5, 7.3.5.3; the GNU page DebugFissionDWP): its entries and rows, its
//! hash table, its bytes.
#![tactic(auto)]

mod entry;
mod index_writer;
pub mod laws;
mod rows;

pub use entry::IndexEntry;
pub use index_writer::{Buckets, bucket, write_index, write_rows};
pub use rows::{IndexRows, share};
