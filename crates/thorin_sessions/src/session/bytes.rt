//! A session for inputs that are bytes.

ghost use Rattle.std.specs.Prelude.{◌≢◌, IfErr, Err};
ghost use Rattle.thorin_sessions.specs.Sessions.{IsOffered, IsNoWantOfMemory, OffersNone};

use crate::session::Session;
use bumpalo::Bump;
use std::alloc::AllocError;
use std::io;
use std::path::Path;
use thorin_errors::InputError;

/// A session without files, for inputs that are bytes: no path has a file in it.
#[derive(Drop)]
pub struct BytesSession<'a> {
    bump: &'a Bump,
}

impl<'a> BytesSession<'a> {
    /// A session that places its data in the arena.
    pub fn new(bump: &'a Bump) -> BytesSession<'a> {
        BytesSession { bump }
    }
}

impl<'a, Relocations: Copy> Session<Relocations> for BytesSession<'a> {
    ghost offer = { λ _ _ answer. OffersNone answer };

    fn alloc_data<'s>(&'s self, bytes: Vec<u8>) -> Result<&'s [u8], AllocError> {
        Ok(self.bump.try_alloc_slice_copy(bytes.as_slice())?)
    }

    fn alloc_relocation<'s>(
        &'s self,
        list: &[Relocations],
    ) -> Result<&'s [Relocations], AllocError> {
        Ok(self.bump.try_alloc_slice_copy(list)?)
    }

    /// Gives an error of kind `NotFound`. It takes no memory.
    fn read_input<'s>(&'s self, _path: Path<'_>) -> Result<&'s [u8], InputError>
        ensures offered { IsOffered OffersNone result }
        ensures memory { IfErr result IsNoWantOfMemory }
        ensures no_memory_taken { result ≢ Err InputError.Memory }
    {
        Err(InputError::Io(io::Error::from(io::ErrorKind::NotFound)))
    }
}
