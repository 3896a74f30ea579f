//! The names of units: identifiers and type signatures (DWARF 5, 7.3.5.3).

ghost use Rattle.std.specs.Prelude.{◌≡◌, ℕ};

use std::fmt::{Debug, Formatter, Write};

/// The identifier of a split compilation unit (DWARF 5, 7.5.1.2; `DW_AT_GNU_dwo_id` before it).
#[derive(Clone, Copy, PartialEq, Eq, Hash)]
pub struct DwoId(pub u64);

impl Debug for DwoId {
    fn fmt<W: Write>(&self, f: &mut Formatter<W>) -> std::fmt::Result {
        write!(f, "DwoId({:#x})", self.0)
    }
}

/// The signature of a type unit (DWARF 5, 7.5.1.3).
#[derive(Clone, Copy, PartialEq, Eq, Hash)]
pub struct DebugTypeSignature(pub u64);

impl Debug for DebugTypeSignature {
    fn fmt<W: Write>(&self, f: &mut Formatter<W>) -> std::fmt::Result {
        write!(f, "DebugTypeSignature({:#x})", self.0)
    }
}

/// The name of a unit: its kind and its number. A compilation unit and a type unit of one number
/// have two names, and two indexes.
#[derive(Clone, Copy, Debug, PartialEq, Eq, Hash)]
pub enum DwarfObject {
    /// A compilation unit.
    Compilation(DwoId),
    /// A type unit.
    TypeUnit(DebugTypeSignature),
}

/// What stands in the hash table of an index.
pub trait Bucketable {
    /// The number by which a table looks it up.
    ghost identifier: { Self → ℕ };

    /// The number by which a table looks it up.
    fn index(&self) -> u64
        ensures { result ≡ identifier self.now };
}

impl Bucketable for DwoId {
    ghost identifier = { λ d. d.0 };

    fn index(&self) -> u64 {
        self.0
    }
}

impl Bucketable for DebugTypeSignature {
    ghost identifier = { λ s. s.0 };

    fn index(&self) -> u64 {
        self.0
    }
}

impl Bucketable for DwarfObject {
    ghost use Rattle.dwp_table.specs.Objects.{identifier_of};

    ghost identifier = { identifier_of };

    fn index(&self) -> u64 {
        match self {
            DwarfObject::Compilation(id) => id.0,
            DwarfObject::TypeUnit(signature) => signature.0,
        }
    }
}
