//! Answers the rows of its data files: each is a call of the parts of packaging, `thorin_errors` to
//! `thorin_executable`, with its arguments, and is printed with what it answers. For the gate
//! alone.
//!
//! `CALL WORD..`, as `test_rows` has it. What words a call takes is said above its function, in the
//! module of the file's name.
#![tactic(auto)]

mod errors;
mod executable;
mod packaged;
mod parts;
mod sessions;
mod strings;

use std::io;
use test_rows::{Calls, Row, Said, print_files};

/// The files of rows, one for each crate.
const FILES: [&str; 6] = [
    "errors.rows",
    "sessions.rows",
    "strings.rows",
    "parts.rows",
    "packaged.rows",
    "executable.rows",
];

/// The calls of the parts of packaging; some read files.
#[derive(Drop)]
struct OfParts<'r> {
    rt: &'r HostRuntime,
}

impl Calls for OfParts<'_> {
    fn call(&self, row: Row<'_>, said: &mut Said) {
        match row.word(0) {
            "arena_session" => sessions::arena(self.rt, row, said),
            "skeletons_at" => executable::skeletons_at(self.rt, row, said),
            _ => strings::call(row, said),
        }
    }
}

fn main(rt: HostRuntime) -> io::Result<()> {
    print_files(&rt, &OfParts { rt: &rt }, &FILES)
}
