//! The commands of the program `thorin`, over the words that each was given: `pack`, and those that
//! only read.
#![tactic(auto)]

mod archives;
mod making;
mod missing;
mod notes;
mod packing;
mod reading;
mod telling;

pub use dwp_macros::KeptMacros;
pub use missing::list_missing;
pub use packing::{Packing, pack};
pub use thorin::NamelessUnits;
pub use thorin_inputs::reason;
pub use thorin_output::{FileSystem, Warnings};
