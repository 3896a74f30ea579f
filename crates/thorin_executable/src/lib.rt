//! Which split units an executable names, and where their objects are (DWARF 5, 3.1.2; the GNU page
//! DebugFission).
#![tactic(auto)]

mod listing;
mod loading;
mod paths;
mod relocations;

pub use listing::{
    NamedUnit, NamedUnits, NamelessUnits, Skeleton, SkeletonList, SkeletonUnits, skeletons,
};
pub use relocations::add_relocations;
