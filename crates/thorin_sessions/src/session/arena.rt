//! Sessions that read files of the system.

ghost use Rattle.std.specs.Prelude.{◌≡◌, IfOk, IfErr, IfSome};
ghost use Rattle.thorin_sessions.specs.Sessions.{IsNoWantOfMemory};

use crate::session::Session;
use bumpalo::Bump;
use bumpalo::collections::into_bump_slice;
use std::alloc::AllocError;
use std::fs::{File, OpenFile};
use std::io::Read;
use std::path::Path;
use std::rt::Files;
use thorin_errors::InputError;

/// A session that reads files of the system, each straight into the arena.
#[derive(Drop)]
pub struct ArenaSession<'a, R: Files> {
    files: &'a R,
    bump: &'a Bump,
}

impl<'a, R: Files> ArenaSession<'a, R> {
    ghost use Rattle.thorin_sessions.specs.ArenaSession.{runtime_of};

    /// A session that reads the files of this runtime, and places its data in the arena.
    pub fn new(files: &'a R, bump: &'a Bump) -> ArenaSession<'a, R>
        ensures { runtime_of result ≡ files.now }
    {
        ArenaSession { files, bump }
    }
}

impl<'a, R: Files, Relocations: Copy> Session<Relocations> for ArenaSession<'a, R> {
    // A file of the system may hold anything, and any read of it may fail.
    ghost offer = { λ _ _ _. Unit {0} };

    fn alloc_data<'s>(&'s self, bytes: Vec<u8>) -> Result<&'s [u8], AllocError> {
        Ok(self.bump.try_alloc_slice_copy(bytes.as_slice())?)
    }

    fn alloc_relocation<'s>(
        &'s self,
        list: &[Relocations],
    ) -> Result<&'s [Relocations], AllocError> {
        Ok(self.bump.try_alloc_slice_copy(list)?)
    }

    /// Reads the file into room of its length, where the system tells the length. Want of memory is
    /// `Memory` alone.
    fn read_input<'s>(&'s self, path: Path<'_>) -> Result<&'s [u8], InputError> {
        let mut file = File::open(self.files, path)?;
        let len = file.metadata().map_or(0, |metadata| metadata.len());
        read_into(self.bump, &mut file, len)
    }
}

/// Reads all that is left, which is about `len` bytes, into the arena. A file of that length makes
/// one allocation: the byte more lets the read that finds the end have room. Errors: that of the
/// read that failed; want of memory is `InputError::Memory` alone.
pub fn read_into<'a, F: Read>(
    bump: &'a Bump,
    file: &mut F,
    len: u64,
) -> Result<&'a [u8], InputError>
    ensures all { IfOk result (λ bytes. IfSome (F.remaining file.old) (λ all. bytes.now ≡ all)) }
    ensures memory { IfErr result IsNoWantOfMemory }
{
    let mut bytes = Vec::with_capacity(bump, (len as usize).saturating_add(1))?;
    file.read_to_end(&mut bytes)?;
    Ok(into_bump_slice(bytes))
}
