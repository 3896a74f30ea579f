//! The units of a section of DWARF data: their headers, and the bytes that each has.
#![tactic(auto)]

mod code;
pub mod laws;
mod unit;

pub use code::read_code;
pub use unit::{UnitHeader, UnitHeaders, UnitSection, UnitType};
