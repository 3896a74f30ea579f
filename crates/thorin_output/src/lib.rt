//! Writing the file of a package, and the warnings that are printed behind it.
#![tactic(auto)]

mod files;
mod warnings;

pub use files::FileSystem;
pub use warnings::{Warned, Warnings, write_then_warn};
