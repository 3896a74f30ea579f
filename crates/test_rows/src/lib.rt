//! What the programs of rows have in common: each row of their data files is a call with its
//! arguments, and is printed with what it answers. Also the bytes of a script by their names, and
//! damage to bytes by a seed. For the gate alone.
//!
//! A row is a line `CALL WORD..`; a line that begins with `#` is a comment, and isn't printed. Bytes
//! are hexadecimal digits, or `@NAME`, whose digits stand behind the name in a line of the file
//! `named`; changes may follow, each `,PLACE=BYTE`. A number is decimal, or hexadecimal behind
//! `0x`; a byte order is `little` or `big`, a format `narrow` or `wide`; a kind of section has its
//! name in the enum, as `StrOffsets`. What a call answers is printed behind four blanks.
#![tactic(auto)]

mod damage;
mod row;
mod table;

pub use damage::Generator;
pub use row::{
    Hex, Row, Said, Text, bytes_of, bytes_of_word, change, encoding, kind, number, order, place,
    split,
};
use std::alloc::{AllocError, Global};
use std::{env, fs, io};
pub use table::{Table, part};

/// The calls of a program of rows.
pub trait Calls {
    /// Makes the call of a row, and says what it answers.
    fn call(&self, row: Row<'_>, said: &mut Said);
}

/// The words of the command line behind the program's name: the files that are to be run alone.
///
/// # Errors
///
/// A word is no UTF-8, or memory is refused.
pub fn asked(rt: &HostRuntime) -> io::Result<Vec<String>> {
    let words = env::args(rt)?;
    let words: Vec<String> = words.skip(1).collect(rt.alloc())?;
    Ok(words)
}

/// Prints the name of each file of rows, and its rows, each with what it answers in the next line:
/// of those that the command line names, or of all. The file `named` has the bytes that rows name.
///
/// # Errors
///
/// A file can't be read, nothing can be printed, or memory is refused.
pub fn print_files<C: Calls>(rt: &HostRuntime, calls: &C, files: &[&str]) -> io::Result<()> {
    let named = fs::read_to_string(rt, "named")?;
    let asked = asked(rt)?;
    for file in &asked {
        print_rows(rt, calls, &named, file)?;
    }
    if asked.is_empty() {
        for file in files {
            print_rows(rt, calls, &named, file)?;
        }
    }
    Ok(())
}

fn print_rows<C: Calls>(rt: &HostRuntime, calls: &C, named: &str, file: &str) -> io::Result<()> {
    let rows = fs::read_to_string(rt, file)?;
    let answers = answers(calls, rt.alloc(), named, &rows)?;
    println!(rt; "{file}{answers}")
}

/// Each row in a line, and what it answers in the next.
fn answers<C: Calls>(
    calls: &C,
    alloc: Global,
    named: &str,
    rows: &str,
) -> Result<String, AllocError> {
    let mut said = Said::new(alloc);
    for line in rows.lines() {
        if !line.is_empty() && !line.starts_with('#') {
            said.begin(line);
            answer(calls, alloc, named, line, &mut said);
        }
    }
    said.finish()
}

/// What the call of a row answers.
fn answer<C: Calls>(calls: &C, alloc: Global, named: &str, line: &str, said: &mut Said) {
    let words: Vec<&str> = said.made(line.split_whitespace().collect(alloc), Vec::new(alloc));
    let mut data = Vec::new(alloc);
    for word in &words {
        add_word(alloc, &mut data, named, word, said);
    }
    let row = Row {
        alloc,
        words: &words,
        data: &data,
    };
    calls.call(row, said);
}

/// Adds the bytes of a word.
fn add_word(alloc: Global, data: &mut Vec<Vec<u8>>, named: &str, word: &str, said: &mut Said) {
    let bytes = said.made(bytes_of_word(alloc, named, word), Vec::new(alloc));
    let is_done = data.push(bytes).is_ok();
    said.note_that(is_done);
}
