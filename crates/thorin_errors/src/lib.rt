//! The errors of packaging, and their texts.
#![tactic(auto)]

mod error;
pub mod laws;

pub use error::{Error, InputError, MissingReferencedObjectBehaviour, Result};
