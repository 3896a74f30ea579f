//! The files that the commands which read are given, decompressed where that is asked for.
#![tactic(auto)]

ghost use Rattle.std.specs.Prelude.{◌≡◌};
ghost use Rattle.thorin_reading.specs.Taken.{Takes};

use dwp_decompress::{Asked, DecompressError, plain_length};
use std::alloc::Global;
use std::cell::Cell;
use std::io;
use thorin_find::{FileReader, PackageKind, kind_of};
use thorin_inputs::{Compression, decompress};

/// The files of another reader, each decompressed where that is asked for. Of a file whose
/// compressed sections overlap nothing is decompressed.
#[derive(Drop)]
pub struct PlainReader<'f, F> {
    /// The other reader.
    pub files: &'f F,
    /// Whether files are decompressed.
    pub decompresses: bool,
    alloc: Global,
    /// What the last file is: still compressed or not, and a package or not.
    compression: Cell<Compression>,
    kind: Cell<PackageKind>,
}

impl<'f, F: FileReader> PlainReader<'f, F> {
    /// Those of a reader, decompressed or as they are.
    pub fn new(alloc: Global, files: &'f F, decompresses: bool) -> PlainReader<'f, F>
        ensures files { result.files.now ≡ files.now }
        ensures decompresses { result.decompresses ≡ decompresses }
    {
        PlainReader {
            files,
            decompresses,
            alloc,
            compression: Cell::new(Compression::None),
            kind: Cell::new(PackageKind::NoIndex),
        }
    }

    /// What the last file that was read still has of compressed sections that units may need.
    pub fn compression(&self) -> Compression {
        self.compression.get()
    }

    /// What the last file that was read is, as it was taken.
    pub fn kind(&self) -> PackageKind {
        self.kind.get()
    }
}

impl<F: FileReader> FileReader for PlainReader<'_, F> {
    ghost offer = { λ reader. Takes reader.decompresses (F.offer reader.files.now) };

    fn read(&self, path: &str) -> io::Result<Vec<u8>> {
        let mut bytes = self.files.read(path)?;
        let left = if self.decompresses {
            decompress(self.alloc, &mut bytes, false)?
        } else {
            match plain_length(&bytes, Asked::OfUnits) {
                Ok(None) | Err(DecompressError::Read(_)) => Compression::None,
                _ => Compression::Left,
            }
        };
        self.compression.set(left);
        self.kind.set(kind_of(&bytes));
        Ok(bytes)
    }
}
