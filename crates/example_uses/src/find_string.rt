//! Finds a unit in a package and reads one of its strings.

use thorin::{DwarfObject, DwoId, PackageError, PackageFile};

/// The string of a number of a compilation unit; None where there is no such unit or string.
pub fn string_of_unit(
    package: &[u8],
    unit: DwoId,
    number: u64,
) -> Result<Option<&[u8]>, PackageError> {
    let package = PackageFile::parse(package)?;
    match package.find(DwarfObject::Compilation(unit))? {
        Some(unit) => unit.string(number).map_err(PackageError::Unit),
        None => Ok(None),
    }
}
