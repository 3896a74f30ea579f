//! Calls of `thorin_executable`: executables that name split units, and those that are refused.

use bumpalo::Bump;
use dwp_dwarf::RelocationEntry;
use std::alloc::Global;
use std::collections::BTreeMap;
use std::path::Path;
use test_rows::{Row, Said, change, number, split};
use thorin_errors::{Error, InputError};
use thorin_executable::{NamelessUnits, Skeleton, SkeletonList, SkeletonUnits, skeletons};
use thorin_sessions::{ArenaSession, MemorySession, Session};

/// Makes the call of a row.
pub fn call(row: Row<'_>, said: &mut Said) {
    match row.word(0) {
        "skeletons_of" => in_session(row, row.bytes(1), said),
        "skeletons_in" | "passing_over_nameless" => of_sections(row, said),
        "one_by_one" => one_by_one(row, said),
        _ => said.word("no such call"),
    }
}

fn add_words(out: &mut Vec<u8>, words: &[u64], said: &mut Said) {
    for word in words {
        said.extend(out, &word.to_le_bytes());
    }
}

/// The contents of a file's sections behind its header, then their names, and their headers.
#[derive(Drop)]
struct Layout {
    contents: Vec<u8>,
    names: Vec<u8>,
    headers: Vec<u8>,
}

impl Layout {
    /// Adds the header of a section with so many bytes: its type (ELF gABI, `sh_type`), its flags,
    /// and of relocations the number of the section that they are of.
    fn add_header(&mut self, (kind, flags, of): (u64, u64, u64), size: usize, said: &mut Said) {
        let words = [
            ((kind & 15) << 32) | self.names.len() as u64,
            flags,
            0,
            64 + self.contents.len() as u64,
            size as u64,
            (of & 15) << 32,
            1,
            0,
        ];
        add_words(&mut self.headers, &words, said);
    }

    /// The header of a file for x86-64; section `last` has the names.
    fn header(&self, last: u64) -> [u64; 6] {
        [
            (1 << 32) | (62 << 16) | 2,
            0,
            0,
            (64 + self.contents.len() as u64).wrapping_add(self.names.len() as u64),
            64 << 32,
            (last << 48) | (((last & 0xff) + 1) << 32) | (64 << 16),
        ]
    }

    /// Adds the section of a word: its name, `=` and its bytes. Before the `=` may stand `:` and
    /// `c` of a compressed section, or the number of the section that these relocations are of.
    fn add(&mut self, row: Row<'_>, word: &str, said: &mut Said) {
        let (name, digits) = split(word, "=");
        let (name, of) = split(name, ":");
        let bytes = said.bytes_of(row.alloc, digits);
        self.add_section(name, kind_of(of), &bytes, said);
    }

    fn add_section(&mut self, name: &str, kind: (u64, u64, u64), bytes: &[u8], said: &mut Said) {
        self.add_header(kind, bytes.len(), said);
        said.extend(&mut self.contents, bytes);
        said.extend(&mut self.names, name.as_bytes());
        said.extend(&mut self.names, b"\0");
    }

    /// Adds the sections of words, and then the names of them all.
    fn fill(&mut self, row: Row<'_>, words: &[&str], said: &mut Said) {
        said.extend(&mut self.names, b"\0");
        said.extend(&mut self.headers, &[0; 64]);
        for word in words {
            self.add(row, word, said);
        }
        let size = self.names.len();
        self.add_header((1, 0, 0), size, said);
    }

    /// Adds the bytes of a file whose last section is of this number to others.
    fn put(&self, file: &mut Vec<u8>, last: u64, said: &mut Said) {
        said.extend(file, b"\x7fELF\x02\x01\x01\0\0\0\0\0\0\0\0\0");
        add_words(file, &self.header(last), said);
        said.extend(file, &self.contents);
        said.extend(file, &self.names);
        said.extend(file, &self.headers);
    }
}

/// Type, flags, and the section that relocations are of.
fn kind_of(word: &str) -> (u64, u64, u64) {
    match word {
        "" => (1, 0, 0),
        "c" => (1, 0x800, 0),
        _ => (4, 0, number(word)),
    }
}

fn laid_out(row: Row<'_>, said: &mut Said) -> Layout {
    let mut layout = Layout {
        contents: Vec::new(row.alloc),
        names: Vec::new(row.alloc),
        headers: Vec::new(row.alloc),
    };
    layout.fill(row, row.rest(2), said);
    layout
}

/// A file of 64 bits, little endian, of the sections of words 2 on, which are numbered from 1 on.
fn file(row: Row<'_>, said: &mut Said) -> Vec<u8> {
    let layout = laid_out(row, said);
    let mut file = Vec::new(row.alloc);
    layout.put(&mut file, (row.rest(2).len() as u64 & 0xff) + 1, said);
    file
}

/// The units that a list has, and its error.
fn put_list(list: &SkeletonList, said: &mut Said) {
    for unit in &list.units {
        put_named(unit, said);
    }
    said.put(&list.fault);
}

fn put_named(unit: &Skeleton, said: &mut Said) {
    said.put(&(unit.target, unit.path.as_str()));
}

/// What a file names; where it is asked so, one after the other.
fn in_session(row: Row<'_>, bytes: &[u8], said: &mut Said) {
    let bump = Bump::new(row.alloc);
    let files = BTreeMap::new(row.alloc);
    put_asked(&MemorySession::new(&bump, &files), row, bytes, said);
}

fn put_asked<Sess: Session<RelocationEntry>>(
    session: &Sess,
    row: Row<'_>,
    bytes: &[u8],
    said: &mut Said,
) {
    match row.word(0) {
        "one_by_one" => put_units(SkeletonUnits::read(row.alloc, session, bytes), said),
        "passing_over_nameless" => put_those_named(row.alloc, session, bytes, said),
        _ => put_skeletons(row.alloc, session, bytes, said),
    }
}

/// Four of those that name an object, one after the other.
fn put_those_named<Sess: Session<RelocationEntry>>(
    alloc: Global,
    session: &Sess,
    bytes: &[u8],
    said: &mut Said,
) {
    let nameless = NamelessUnits::PassedOver;
    put_units(
        SkeletonUnits::read_by(alloc, session, bytes, nameless),
        said,
    );
}

fn put_skeletons<Sess: Session<RelocationEntry>>(
    alloc: Global,
    session: &Sess,
    bytes: &[u8],
    said: &mut Said,
) {
    put_list(&skeletons(alloc, session, bytes), said);
}

/// Bytes that are changed, or `-`, and the sections of an executable: what it names.
fn of_sections(row: Row<'_>, said: &mut Said) {
    let mut bytes = file(row, said);
    change(&mut bytes, row.word(1));
    in_session(row, &bytes, said);
}

fn put_next(left: &mut SkeletonUnits<'_>, said: &mut Said) {
    match left.next() {
        Ok(Some(unit)) => put_named(&unit, said),
        Ok(None) => said.word("none"),
        Err(error) => said.put(&error),
    }
}

/// Four units, one after the other.
fn put_units(left: Result<SkeletonUnits<'_>, Error>, said: &mut Said) {
    match left {
        Ok(mut left) => put_four(&mut left, said),
        Err(error) => said.put(&error),
    }
}

fn put_four(left: &mut SkeletonUnits<'_>, said: &mut Said) {
    for _ in 0..4 {
        put_next(left, said);
    }
}

/// `-` and the sections of an executable, or the bytes of a file: what it names, one after the
/// other.
fn one_by_one(row: Row<'_>, said: &mut Said) {
    match row.word(1) {
        "-" => of_sections(row, said),
        _ => in_session(row, row.bytes(1), said),
    }
}

/// Reads a file from a session and asks what it names, as a builder does.
fn put_named_at<Sess: Session<RelocationEntry>>(session: &Sess, row: Row<'_>, said: &mut Said) {
    match session.read_input(Path::new(row.word(1))) {
        Ok(bytes) => put_skeletons(row.alloc, session, bytes, said),
        Err(error) => put_error(error, said),
    }
}

fn put_error(error: InputError, said: &mut Said) {
    said.put(&Error::from(error));
}

/// The path of a file: what it names.
pub fn skeletons_at(rt: &HostRuntime, row: Row<'_>, said: &mut Said) {
    let bump = Bump::new(row.alloc);
    put_named_at(&ArenaSession::new(rt, &bump), row, said);
}
