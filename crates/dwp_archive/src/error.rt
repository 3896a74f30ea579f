//! What is wrong with an archive.

ghost use Rattle.std.specs.Prelude.{◌≡◌, Some};
ghost use Rattle.dwp_archive.specs.Texts.{archive_text};
ghost use Rattle.dwp_archive.specs.declared.error.ArchiveError.TheVariants.{Memory};

use std::alloc::{AllocError, AllocFailed};
use std::fmt;

/// What is wrong with an archive.
#[derive(Clone, Copy, Debug, PartialEq, Eq, Hash)]
pub enum ArchiveError {
    /// The first line isn't that of an archive.
    NotArchive,
    /// The archive is thin: its members are files of their own.
    Thin,
    /// Fewer bytes than a member's header has.
    HeaderTooShort,
    /// A member's header doesn't end as it has to.
    HeaderEnd,
    /// A member's size isn't a number.
    Size,
    /// A member reaches past the end of the archive.
    PastEnd,
    /// Where a member's long name stands, or how many bytes it has, isn't a number.
    Name,
    /// A member's long name lies past the end of the table of names.
    PastNames,
    /// A member's name in front of its content is longer than both.
    NameTooLong,
    /// Memory ran out.
    Memory,
}

impl ArchiveError {
    /// What is said of it.
    pub fn text(&self) -> &'static str
        ensures { result.now ≡ archive_text self.now }
    {
        match self {
            ArchiveError::NotArchive => "File is not an archive",
            ArchiveError::Thin => "Archive is thin",
            ArchiveError::HeaderTooShort => "Header of a member is cut short",
            ArchiveError::HeaderEnd => "Header of a member has a bad end",
            ArchiveError::Size => "Size of a member is not a number",
            ArchiveError::PastEnd => "Member reaches past the end of the archive",
            ArchiveError::Name => "Name of a member can't be read",
            ArchiveError::PastNames => "Name of a member is past the table of names",
            ArchiveError::NameTooLong => "Name of a member is longer than the member",
            ArchiveError::Memory => "Out of memory",
        }
    }
}

impl fmt::Display for ArchiveError {
    ghost output = { λ e. Some (archive_text e) };

    fn fmt<W: fmt::Write>(&self, f: &mut fmt::Formatter<W>) -> fmt::Result {
        f.write_str(self.text())
    }
}

impl std::error::Error for ArchiveError {}

impl From<AllocError> for ArchiveError {
    ghost from_gives = { λ _ error. error ≡ Memory };

    fn from(_e: AllocError) -> ArchiveError {
        ArchiveError::Memory
    }
}

impl<T: Drop> From<AllocFailed<T>> for ArchiveError {
    ghost from_gives = { λ _ error. error ≡ Memory };

    fn from(_e: AllocFailed<T>) -> ArchiveError {
        ArchiveError::Memory
    }
}
