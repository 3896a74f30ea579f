//! Calls of `dwp_decompress`: files with compressed sections, and each error of them.

use dwp_decompress::{Asked, decompressed, overlaps, plain_length};
use dwp_elf_read::{ElfFile, Section};
use test_rows::{Hex, Row, Said, Text};

/// The row's name and a file: each section of the file that is made, or its error.
pub fn call(row: Row<'_>, said: &mut Said) {
    match row.word(0) {
        "asked" => call_asked(row, Asked::OfUnits, said),
        "plain_length" => said.put(&plain_length(row.bytes(2), Asked::All)),
        "overlaps" => said.put(&overlaps(row.bytes(2), Asked::OfUnits)),
        _ => call_asked(row, Asked::All, said),
    }
}

fn call_asked(row: Row<'_>, asked: Asked, said: &mut Said) {
    match decompressed(row.alloc, row.bytes(2), asked) {
        Ok(Some(file)) => put_file(&file, said),
        Ok(None) => said.word("as it is"),
        Err(error) => said.error(&error),
    }
}

fn put_file(bytes: &[u8], said: &mut Said) {
    match ElfFile::parse(bytes) {
        Ok(file) => {
            for section in file.sections() {
                put_section(&section, said);
            }
        }
        Err(error) => said.err(&error),
    }
}

/// A section's name, its type, flags, link and size, and its content.
fn put_section(section: &Section<'_>, said: &mut Said) {
    said.put(&(
        Text(section.name().unwrap_or("?").as_bytes()),
        section.kind(),
        section.flags(),
        section.link(),
        section.size(),
        Hex(section.data().unwrap_or(b"outside".as_slice())),
    ));
}
