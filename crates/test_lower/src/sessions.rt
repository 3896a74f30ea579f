//! Calls of the sessions of `thorin_sessions`: what they read and place.

use bumpalo::Bump;
use std::borrow::CowSlice;
use std::collections::BTreeMap;
use std::io;
use std::io::Read;
use std::path::Path;
use std::rt::Files;
use test_rows::{Row, Said, Text};
use thorin_errors::InputError;
use thorin_sessions::{ArenaSession, BytesSession, MemorySession, Session, read_into};

/// Makes the call of a row.
pub fn call(row: Row<'_>, said: &mut Said) {
    match row.word(0) {
        "memory_session" => memory(row, said),
        "bytes_session" => bytes(row, said),
        "failing" => read_failing(row, said),
        _ => crate::executable::call(row, said),
    }
}

/// A copy of the bytes of word 2.
fn owned(row: Row<'_>, said: &mut Said) -> Vec<u8> {
    said.made(row.bytes(2).to_vec(row.alloc), Vec::new(row.alloc))
}

/// A path and bytes: what a session reads at the path, and places beside it.
fn put_session<S: Session<u64>>(session: &S, row: Row<'_>, said: &mut Said) {
    match session.read_input(Path::new(row.word(1))) {
        Ok(read) => put_placed(session, read, owned(row, said), said),
        Err(error) => said.put(&error),
    }
}

/// What was read and what is placed, one after the other: own bytes, borrowed ones, and numbers.
fn put_placed<S: Session<u64>>(session: &S, read: &[u8], bytes: Vec<u8>, said: &mut Said) {
    let owned = said.placed(session.alloc_owned_cow(CowSlice::Owned(bytes)));
    let borrowed = said.placed(session.alloc_owned_cow(CowSlice::Borrowed(read)));
    let numbers = said.placed(session.alloc_relocation(&[3, 5]));
    said.put(&(Text(read), Text(owned)));
    said.put(&(Text(borrowed), numbers));
}

/// What a session places without a file.
fn put_session_alone<S: Session<u64>>(session: &S, bytes: Vec<u8>, said: &mut Said) {
    let data = said.placed(session.alloc_data(bytes));
    let numbers = said.placed(session.alloc_relocation(&[3, 5]));
    said.put(&Text(data));
    said.put(&numbers);
}

/// A path, and bytes: what a session with the bytes `abc` as `a.dwo` reads at the path, and places
/// beside it; and whether its arena is emptied then.
fn memory(row: Row<'_>, said: &mut Said) {
    let name = said.made(String::from_str(row.alloc, "a.dwo"), String::new(row.alloc));
    let bytes = said.made(b"abc".to_vec(row.alloc), Vec::new(row.alloc));
    let mut files = BTreeMap::new(row.alloc);
    said.note_that(files.insert(name, bytes).is_ok());
    let mut bump = Bump::new(row.alloc);
    put_memory(&files, &mut bump, row, said);
}

fn put_memory(files: &BTreeMap<String, Vec<u8>>, bump: &mut Bump, row: Row<'_>, said: &mut Said) {
    put_session(&MemorySession::new(bump, files), row, said);
    // Before the last use of what was placed this doesn't compile: the arena is still borrowed
    // (E0502).
    said.put(&bump.reset().is_ok());
}

/// A path, and bytes: what a session without files reads, and what it places without a file.
fn bytes(row: Row<'_>, said: &mut Said) {
    let bump = Bump::new(row.alloc);
    let session = BytesSession::new(&bump);
    put_session(&session, row, said);
    let bytes = owned(row, said);
    put_session_alone(&session, bytes, said);
}

/// What a session answers that reads the files of the system, or of any other.
pub fn arena<R: Files>(files: &R, row: Row<'_>, said: &mut Said) {
    let bump = Bump::new(row.alloc);
    put_session(&ArenaSession::new(files, &bump), row, said);
}

/// Gives bytes one at a time, and then an error of the kind.
#[derive(Drop)]
struct Failing {
    left: u8,
    kind: io::ErrorKind,
}

impl Read for Failing {
    fn read(&mut self, buf: &mut [u8]) -> io::Result<usize> {
        if self.left == 0 {
            return Err(io::Error::from(self.kind));
        }
        self.left -= 1;
        match buf {
            [] => Ok(0),
            [first, ..] => {
                *first = self.left;
                Ok(1)
            }
        }
    }
}

/// How many bytes a reader gives before it fails, and the kind of its error, `OutOfMemory` or
/// another: what is answered.
fn read_failing(row: Row<'_>, said: &mut Said) {
    let bump = Bump::new(row.alloc);
    let mut file = Failing {
        left: (row.number(1) & 0xff) as u8,
        kind: match row.word(2) {
            "OutOfMemory" => io::ErrorKind::OutOfMemory,
            _ => io::ErrorKind::ConnectionReset,
        },
    };
    put_read(read_into(&bump, &mut file, 2), said);
}

fn put_read(read: Result<&[u8], InputError>, said: &mut Said) {
    match read {
        Ok(bytes) => said.put(&Text(bytes)),
        Err(error) => said.put(&error),
    }
}
