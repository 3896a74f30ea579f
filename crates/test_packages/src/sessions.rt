//! A session whose files are the names of a script that begin with `/`, and which refuses one call.

use std::alloc::AllocError;
use std::cell::Cell;
use std::io;
use std::path::{AsPath, Path};
use test_rows::{Said, Table, number, split};
use thorin::{Bump, BytesSession, InputError, RelocationEntry, Session};

/// A session that counts its reads and what is placed in it, and refuses a call by its number among
/// those of its sort, from 0 on.
#[derive(Drop)]
pub struct RefusingSession<'a> {
    places: BytesSession<'a>,
    files: &'a Table<'a>,
    /// A read, as one of a file that may not be read, where this is `read`; for want of memory,
    /// where it is `memory`; a placing of bytes or of relocations, where it is `placing`.
    refused: &'a str,
    number: u64,
    reads: Cell<u64>,
    placings: Cell<u64>,
}

impl<'a> RefusingSession<'a> {
    /// That of a word: `none`, or `read`, `memory` or `placing` with `=` and a number.
    pub fn new(arena: &'a Bump, files: &'a Table<'a>, refusal: &'a str) -> RefusingSession<'a> {
        let (refused, at) = split(refusal, "=");
        RefusingSession {
            places: BytesSession::new(arena),
            files,
            refused,
            number: number(at),
            reads: Cell::new(0),
            placings: Cell::new(0),
        }
    }

    /// Counts a placing.
    fn note_placing(&self) -> Result<(), AllocError> {
        let placing = self.placings.get();
        self.placings.set(placing.saturating_add(1));
        if self.refused == "placing" && self.number == placing {
            return Err(AllocError);
        }
        Ok(())
    }

    /// Says how many reads there were, and whether a placing was refused.
    pub fn tell(&self, said: &mut Said) {
        said.number("  reads: ", self.reads.get());
        let is_refused = self.refused == "placing" && self.number < self.placings.get();
        said.add(if is_refused {
            ", a placing refused\n"
        } else {
            "\n"
        });
    }
}

impl<'a> Session<RelocationEntry> for RefusingSession<'a> {
    ghost offer = { λ _ _ _. Unit {0} };

    fn alloc_data<'s>(&'s self, bytes: Vec<u8>) -> Result<&'s [u8], AllocError> {
        self.note_placing()?;
        Session::<RelocationEntry>::alloc_data(&self.places, bytes)
    }

    fn alloc_relocation<'s>(
        &'s self,
        list: &[RelocationEntry],
    ) -> Result<&'s [RelocationEntry], AllocError> {
        self.note_placing()?;
        self.places.alloc_relocation(list)
    }

    fn read_input<'s>(&'s self, path: Path<'_>) -> Result<&'s [u8], InputError> {
        let read = self.reads.get();
        self.reads.set(read.saturating_add(1));
        let kind = match self.refused {
            "memory" if self.number == read => return Err(InputError::Memory),
            "read" if self.number == read => io::ErrorKind::PermissionDenied,
            _ => match self.files.named(path.path_text()) {
                Some(bytes) => return Ok(bytes),
                None => io::ErrorKind::NotFound,
            },
        };
        Err(InputError::Io(io::Error::from(kind)))
    }
}
