//! Sessions whose files stand in memory.

ghost use Rattle.std.specs.Prelude.{◌≡◌, ◌≢◌, IfErr, Err};
ghost use Rattle.std.specs.Path.{path_bytes};
ghost use Rattle.thorin_sessions.specs.Sessions.{IsOffered, IsNoWantOfMemory, MapOffers};

use crate::session::Session;
use bumpalo::Bump;
use std::alloc::AllocError;
use std::collections::BTreeMap;
use std::io;
use std::path::{AsPath, Path};
use thorin_errors::InputError;

/// A session whose files stand in a map, by their paths.
#[derive(Drop)]
pub struct MemorySession<'a> {
    bump: &'a Bump,
    files: &'a BTreeMap<String, Vec<u8>>,
}

impl<'a> MemorySession<'a> {
    ghost use Rattle.thorin_sessions.specs.MemorySession.{files_of};

    /// A session over these files, which places its data in the arena.
    pub fn new(bump: &'a Bump, files: &'a BTreeMap<String, Vec<u8>>) -> MemorySession<'a>
        ensures { files_of result ≡ files.now }
    {
        MemorySession { bump, files }
    }
}

impl<'a, Relocations: Copy> Session<Relocations> for MemorySession<'a> {
    ghost use Rattle.thorin_sessions.specs.MemorySession.{files_of};

    ghost offer = { λ session path answer. MapOffers (files_of session) path answer };

    fn alloc_data<'s>(&'s self, bytes: Vec<u8>) -> Result<&'s [u8], AllocError> {
        Ok(self.bump.try_alloc_slice_copy(bytes.as_slice())?)
    }

    fn alloc_relocation<'s>(
        &'s self,
        list: &[Relocations],
    ) -> Result<&'s [Relocations], AllocError> {
        Ok(self.bump.try_alloc_slice_copy(list)?)
    }

    /// Gives the bytes of the file in the map, or an error of kind `NotFound`. It takes no memory.
    fn read_input<'s>(&'s self, path: Path<'_>) -> Result<&'s [u8], InputError>
        ensures offered { IsOffered (MapOffers (files_of self.now) (path_bytes path.entry)) result }
        ensures memory { IfErr result IsNoWantOfMemory }
        ensures no_memory_taken { result ≢ Err InputError.Memory }
    {
        match self.files.get(path.path_text()) {
            Some(file) => Ok(file.as_slice()),
            None => Err(InputError::Io(io::Error::from(io::ErrorKind::NotFound))),
        }
    }
}
