//! The command lines of `thorin`: which command a line asks for, and what it is given.
#![tactic(auto)]

mod asking;
mod command;
mod peers;
mod reading;
mod texts;

pub use asking::{CheckArguments, Commands, FindArguments, ListArguments, PackArguments, dispatch};
pub use peers::is_peer;
pub use reading::run;
