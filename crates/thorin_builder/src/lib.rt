//! The builder: split DWARF objects and finished packages joined into one package (DWARF 5, 7.3.5;
//! the GNU page DebugFissionDWP).
#![tactic(auto)]

mod adding;
mod executables;
mod in_progress;
mod missing;
mod package;
mod reader;
mod repeated;
mod state;

pub use in_progress::InProgressDwarfPackage;
pub use missing::MissingTargets;
pub use package::DwarfPackage;
pub use reader::{InputReader, NotTaken, Repetition, admit_path, tried, undeclined};
pub use thorin_executable::{NamelessUnits, Skeleton, SkeletonList, SkeletonUnits, skeletons};
pub use thorin_identity::dwo_identifier_of_unit;
