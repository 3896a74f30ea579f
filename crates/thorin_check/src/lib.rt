//! The command `check`: what is wrong with a package, and with what executables name.
#![tactic(auto)]

mod abbreviations;
mod checking;
mod executables;
mod faults;
mod overlaps;
mod strings;
mod tables;
mod units;

pub use checking::check_by;
pub use executables::Reading;
