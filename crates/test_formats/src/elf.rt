//! Calls of `dwp_elf`: files that are written, and what a writer that is slow, fails or takes
//! nothing gets of them.

ghost use Rattle.std.specs.Prelude.{Some};

use dwp_elf::{Class, Contribution, Watched, WritableObject, WriteError};
use std::alloc::{AllocError, Global};
use std::io;
use std::io::{ErrorKind, Write};
use test_rows::{Hex, Row, Said, bytes_of, kind, place, split};

/// Makes the call of a row.
pub fn call(row: Row<'_>, said: &mut Said) {
    match row.word(0) {
        "appended" | "file_size" | "written" => with_object(row, 4, said),
        "written_to" | "watched" => with_object(row, 7, said),
        _ => crate::reading::call(row, said),
    }
}

/// Makes the call of a row with an object that has the contents of its words from a place on.
fn with_object(row: Row<'_>, from: usize, said: &mut Said) {
    let mut object = object(row);
    fill(&mut object, row, from, said);
    of_object(&object, row, said);
}

/// The object; the size of its file; that size, the size that the file has, and the file; or what a
/// writer gets of it, which may be watched.
fn of_object(object: &WritableObject, row: Row<'_>, said: &mut Said) {
    match row.word(0) {
        "appended" => put_object(object, said),
        "file_size" => said.put(&object.file_size()),
        "written" => put_file(&object.file_size(), &object.write(), said),
        "written_to" => written_to(object, row, said),
        _ => watched(object, row, said),
    }
}

/// An object by its class, machine and byte order, words 1 to 3.
fn object(row: Row<'_>) -> WritableObject {
    let class = match row.word(1) {
        "32" => Class::Elf32,
        _ => Class::Elf64,
    };
    WritableObject::new(row.alloc, class, row.half(2), row.order(3))
}

/// Adds bytes by a word: a kind, `=` and their digits.
fn append(
    alloc: Global,
    object: &mut WritableObject,
    word: &str,
) -> Result<Option<Contribution>, WriteError> {
    let (name, digits) = split(word, "=");
    match bytes_of(alloc, digits) {
        Ok(bytes) => object.append(kind(name), &bytes),
        Err(AllocError) => Err(WriteError::Memory),
    }
}

/// Appends a content, and says only why it is refused.
fn add(object: &mut WritableObject, row: Row<'_>, word: &str, said: &mut Said) {
    if let Err(error) = append(row.alloc, object, word) {
        said.put(&error);
    }
}

/// Adds what words say, each a kind, `=` and digits. `appended` says what comes of each, and takes
/// `cut` and the size that the first section is cut to, when the others are gone.
fn fill(object: &mut WritableObject, row: Row<'_>, from: usize, said: &mut Said) {
    let is_told = row.word(0) == "appended";
    for word in row.rest(from) {
        if is_told {
            append_or_cut(object, row, word, said);
        } else {
            add(object, row, word, said);
        }
    }
}

fn append_or_cut(object: &mut WritableObject, row: Row<'_>, word: &str, said: &mut Said) {
    match split(word, "=") {
        ("cut", size) => object.truncate(&[place(size)]),
        _ => said.put(&append(row.alloc, object, word)),
    }
}

fn put_object(object: &WritableObject, said: &mut Said) {
    said.put(&(object.class(), object.machine(), object.endianness()));
    for (kind, bytes) in object.sections() {
        said.put(&(*kind, Hex(bytes)));
    }
}

fn put_file(size: &Result<u64, WriteError>, file: &Result<Vec<u8>, WriteError>, said: &mut Said) {
    match (size, file) {
        (Ok(size), Ok(file)) => said.put(&(*size, file.len(), Hex(file))),
        (size, _file) => said.put(size),
    }
}

/// Takes at most so many bytes a call, fails once it has so many, and takes none from then on where
/// it doesn't fail.
#[derive(Drop)]
struct Limited {
    bytes: Vec<u8>,
    at_once: usize,
    room: usize,
    fails: bool,
}

impl Write for Limited {
    ghost contents = { λ w. Some w.bytes.items };

    fn write(&mut self, buf: &[u8]) -> io::Result<usize> {
        let room = self.room.saturating_sub(self.bytes.len());
        if room == 0 && self.fails {
            return Err(io::Error::from(ErrorKind::Other));
        }
        let taken = buf.len().min(self.at_once).min(room);
        self.bytes.extend_from_slice(&buf[..taken])?;
        Ok(taken)
    }

    fn flush(&mut self) -> io::Result<()> {
        Ok(())
    }
}

/// With memory for a whole package, so that no write is refused for want of it. Words 4 to 6 are
/// how much it takes at once, how much in all, and `fails` where it fails then.
fn make_writer(row: Row<'_>, said: &mut Said) -> Limited {
    Limited {
        bytes: said.made(Vec::with_capacity(row.alloc, 544), Vec::new(row.alloc)),
        at_once: place(row.word(4)),
        room: place(row.word(5)),
        fails: row.word(6) == "fails",
    }
}

/// What came of writing an object, and what the writer has.
fn written_to(object: &WritableObject, row: Row<'_>, said: &mut Said) {
    let mut writer = make_writer(row, said);
    put_done(&object.write_to(&mut writer), said);
    put_written(&writer, said);
}

fn put_done(done: &Result<(), WriteError>, said: &mut Said) {
    match done {
        Ok(()) => said.word("written"),
        Err(WriteError::Io(error)) => said.put(&error.kind()),
        Err(error) => said.put(error),
    }
}

fn put_written(writer: &Limited, said: &mut Said) {
    said.put(&(writer.bytes.len(), Hex(&writer.bytes)));
}

/// What came of writing to a writer that is watched, behind the error that was seen.
fn watched(object: &WritableObject, row: Row<'_>, said: &mut Said) {
    let mut watched = Watched {
        writer: make_writer(row, said),
        error: None,
    };
    let done = object.write_to(&mut watched);
    said.put(&watched.error);
    put_done(&done, said);
    put_written(&watched.writer, said);
}
