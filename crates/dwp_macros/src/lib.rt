//! An object in which macros of some sections don't count.
#![tactic(auto)]

mod kept;

pub use kept::{KeptMacros, MacrosError, loses_macros, with_macros};
