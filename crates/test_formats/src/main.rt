//! Answers the rows of its data files: each is a call of the crates of formats, `dwp_base` to
//! `dwp_decompress`, with its arguments, and is printed with what it answers. For the gate alone.
//!
//! `CALL WORD..`, as `test_rows` has it. What words a call takes is said above its function: those
//! of `base.rows` and `table.rows` are in `formats`, of `bytes.rows` in `reading` and `formats`, of
//! `elf.rows`, `elf_read.rows`, `dwarf.rows` and `index.rows` in the modules of these names, and of
//! `inflate.rows`, `zstd.rows`, `archive.rows` and `decompress.rows` in `inflated`, `archived` and
//! `decompressed`.
#![tactic(auto)]

mod archived;
mod decompressed;
mod dwarf;
mod elf;
mod elf_read;
mod formats;
mod index;
mod inflated;
mod reading;

use std::io;
use test_rows::{Calls, Row, Said, print_files};

/// The files of rows, one for each crate.
const FILES: [&str; 11] = [
    "base.rows",
    "bytes.rows",
    "elf.rows",
    "elf_read.rows",
    "dwarf.rows",
    "table.rows",
    "index.rows",
    "inflate.rows",
    "zstd.rows",
    "archive.rows",
    "decompress.rows",
];

/// The calls of the crates of formats.
struct OfFormats;

impl Calls for OfFormats {
    fn call(&self, row: Row<'_>, said: &mut Said) {
        elf::call(row, said);
    }
}

fn main(rt: HostRuntime) -> io::Result<()> {
    print_files(&rt, &OfFormats, &FILES)
}
