//! The strings of a package, each kept once, and found by its hash, or else by its order.
#![tactic(auto)]

mod buffer;
mod ends;
mod entries;
mod hash;
mod places;
mod positions;
mod search;
mod table;

pub use ends::{ROUNDS, end_of, short_end};
pub use table::{StringTable, TableMark};
