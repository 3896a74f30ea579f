//! The fields of a package while it is made.

ghost use Rattle.std.specs.Prelude.{◌≡◌, map};

use dwp_elf::WritableObject;
use dwp_table::{DebugTypeSignature, DwarfObject};
use indexmap::IndexSet;
use std::alloc::Global;
use std::fmt;
use thorin_index::IndexRows;
use thorin_strings::PackageStringTable;

/// A package that an input has begun: the sections so far, the strings, and each unit's row.
#[derive(Drop)]
pub struct InProgressDwarfPackage {
    pub(crate) alloc: Global,
    pub(crate) object: WritableObject,
    pub(crate) strings: PackageStringTable,
    /// The names of the rows, in order.
    pub(crate) names: IndexSet<DwarfObject>,
    pub(crate) rows: IndexRows,
    pub(crate) differing: Vec<DebugTypeSignature>,
    ghost named: { names.keys ≡ map (λ row. row.id) rows },
}

impl fmt::Debug for InProgressDwarfPackage {
    fn fmt<W: fmt::Write>(&self, f: &mut fmt::Formatter<W>) -> fmt::Result {
        f.write_str("InProgressDwarfPackage")
    }
}
