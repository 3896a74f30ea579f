//! The statuses that exports answer; `status_text` has what each says.

ghost use Rattle.std.specs.Prelude.{◌≡◌};
ghost use Rattle.thorin_c.specs.Finding.{status_of};

use dwp_index::PackageError;

pub(crate) const DONE: i32 = 0;

pub(crate) const ABSENT: i32 = 1;

pub(crate) const NO_SUCH_KIND: i32 = 2;

/// The file is no ELF file that can be read, or one of its sections can't be.
pub(crate) const MALFORMED_FILE: i32 = 3;

/// An index can't be read, or a row number is past its rows.
pub(crate) const MALFORMED_INDEX: i32 = 4;

pub(crate) const RANGE_OUTSIDE: i32 = 5;

/// The unit's header can't be read.
pub(crate) const MALFORMED_UNIT: i32 = 6;

pub(crate) const NO_SUCH_SECTION: i32 = 7;

pub(crate) const NO_SUCH_STRING: i32 = 8;

/// The string is outside the strings, or no zero byte ends it.
pub(crate) const MALFORMED_STRING: i32 = 9;

/// The room is too small.
pub(crate) const TOO_SMALL: i32 = 10;

pub(crate) const REFUSED: i32 = 11;

/// The package can't be finished or written.
pub(crate) const UNFINISHED: i32 = 12;

pub(crate) const NO_MEMORY: i32 = 13;

pub(crate) const NOT_COMPRESSED: i32 = 14;

/// A compressed section's header is damaged, or its stream of zlib's.
pub(crate) const DAMAGED: i32 = 15;

/// A section is compressed in a way that isn't read.
pub(crate) const UNKNOWN_COMPRESSION: i32 = 16;

/// The file can't be written once its sections are plain.
pub(crate) const UNWRITABLE: i32 = 17;

/// A compressed section's stream of zstd's is damaged.
pub(crate) const DAMAGED_ZSTD: i32 = 18;

/// The status of a package, or of one of its units, that can't be read.
pub(crate) fn status_of(error: PackageError) -> i32
    ensures { result ≡ status_of error }
{
    match error {
        PackageError::Elf(_) => MALFORMED_FILE,
        PackageError::Index(_) => MALFORMED_INDEX,
        PackageError::Range(_) => RANGE_OUTSIDE,
        PackageError::Unit(_) => MALFORMED_UNIT,
    }
}
