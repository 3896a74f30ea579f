//! Texts that a command line has: words of response files, and identifiers.
#![tactic(auto)]

mod identifier;
pub mod laws;
mod printing;
mod responses;
mod words;

pub use identifier::hexadecimal;
pub use printing::{is_control, printed, push_control, push_digits};
pub use responses::{ResponseError, ResponseFiles, expanded};
