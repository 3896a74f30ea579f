//! The files that a command line names, and what they are to the commands that read packages.

ghost use Rattle.{dwp_index.specs.Package.package_of, std.specs.declared.io.Error.Error as IoError};
ghost use Rattle.std.specs.Prelude.{Err, IfErr, IfOk, List, Ok, Result, ℕ, ◌≡◌};
ghost use Rattle.thorin_find.specs.Listing.{has_no_index, kind_of};
ghost use Rattle.thorin_find.specs.Files.{anything, FailsToRead};

use dwp_base::SectionKind;
use dwp_index::{PackageError, PackageFile};
use std::cell::Cell;
use std::io;
use thorin_print::Failure;

/// Reads the files that a command line names. `find_by` and `list_by` have no other way to a file.
pub trait FileReader {
    // What a read of the file at a path may answer.
    ghost offer: { Self → List ℕ → Result (List ℕ) IoError → Type 0 };

    /// Reads a file whole. Errors: why it couldn't be read, want of memory by its kind.
    fn read(&self, path: &str) -> io::Result<Vec<u8>>
        ensures read { IfOk result (λ bytes. offer self.now path.now (Ok bytes.items)) }
        ensures refused { IfErr result (λ cause. offer self.now path.now (Err cause)) };
}

/// A file that couldn't be read.
#[derive(Drop)]
pub struct Unread {
    /// Its path.
    pub path: String,
    /// Why.
    pub cause: io::Error,
}

/// The files of the system. What has no end, as a device, isn't read.
#[derive(Drop)]
pub struct HostReader<'a> {
    rt: &'a HostRuntime,
    /// The last that couldn't be read.
    unread: Cell<Option<Unread>>,
}

impl<'a> HostReader<'a> {
    /// The files of this runtime.
    pub fn new(rt: &'a HostRuntime) -> HostReader<'a> {
        HostReader {
            rt,
            unread: Cell::new(None),
        }
    }

    /// The last file that couldn't be read, as far as there was memory to keep it.
    pub fn unread(&self) -> Option<Unread> {
        self.unread.replace(None)
    }
}

impl FileReader for HostReader<'_> {
    ghost offer = { λ _. anything };

    fn read(&self, path: &str) -> io::Result<Vec<u8>> {
        match thorin_files::read(self.rt, path) {
            Ok(bytes) => Ok(bytes),
            Err(cause) => {
                let kind = cause.kind();
                if let Ok(path) = String::from_str(self.rt.alloc(), path) {
                    self.unread.set(Some(Unread { path, cause }));
                }
                Err(io::Error::from(kind))
            }
        }
    }
}

/// Reads a file whole. Errors: `Input`, or `Memory`.
pub fn read_named<F: FileReader>(files: &F, path: &str) -> Result<Vec<u8>, Failure>
    ensures read { IfOk result (λ bytes. F.offer files.now path.now (Ok bytes.items)) }
    ensures refused { IfErr result (FailsToRead (F.offer files.now) path.now) }
{
    match files.read(path) {
        Ok(bytes) => Ok(bytes),
        Err(e) if e.kind() == io::ErrorKind::OutOfMemory => Err(Failure::Memory),
        Err(_) => Err(Failure::Input),
    }
}

/// Whether a package has no index of either kind.
pub fn has_no_index(pack: &PackageFile<'_>) -> bool
    ensures { result ≡ has_no_index pack.now }
{
    pack.compilation_index().is_none() && pack.type_index().is_none()
}

/// What a file is.
#[derive(Clone, Copy)]
pub enum PackageKind {
    /// A package: it has an index.
    Package,
    /// An object: it has split units and no index.
    Object,
    /// A file without an index and without split units.
    NoIndex,
    /// This keeps it from being read.
    Malformed(PackageError),
}

/// What a file is that has these bytes.
pub fn kind_of(bytes: &[u8]) -> PackageKind
    ensures { result ≡ kind_of (package_of bytes.now) }
{
    match PackageFile::parse(bytes) {
        Ok(pack) if !has_no_index(&pack) => PackageKind::Package,
        Ok(pack) if pack.content(SectionKind::Info).is_empty() => PackageKind::NoIndex,
        Ok(_pack) => PackageKind::Object,
        Err(error) => PackageKind::Malformed(error),
    }
}
