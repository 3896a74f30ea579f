//! Files of the system, read whole and written in one another's place.
#![tactic(auto)]

mod reading;
mod writing;

pub use reading::{
    identity, is_file, is_there, read, read_over, read_regular_over, read_within, try_regular,
};
pub use writing::{FileContents, FileError, write};
