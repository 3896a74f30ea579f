//! Archives (ar(5)): their members, in the variants of System V, GNU and BSD.
#![tactic(auto)]

mod error;
mod member;
mod reading;

pub use error::ArchiveError;
pub use member::Member;
pub use reading::members;
