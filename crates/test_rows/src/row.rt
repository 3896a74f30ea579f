//! The words of a row, what they stand for, and how answers are printed.

use dwp_base::{Endianness, SectionKind};
use dwp_bytes::{Encoding, Format};
use std::alloc::{AllocError, Global};
use std::fmt;
use std::fmt::{Debug, Display};

/// A row: a call and its arguments.
#[derive(Clone, Copy)]
pub struct Row<'a> {
    pub alloc: Global,
    pub words: &'a [&'a str],
    /// The bytes that each word stands for, where it stands for any.
    pub data: &'a [Vec<u8>],
}

impl<'a> Row<'a> {
    /// A word, or an empty one.
    pub fn word(self, place: usize) -> &'a str {
        match self.words.get(place) {
            Some(word) => *word,
            None => "",
        }
    }

    /// The words from a place on.
    pub fn rest(self, place: usize) -> &'a [&'a str] {
        self.words.get(place..).unwrap_or(&[])
    }

    /// The bytes of a word.
    pub fn bytes(self, place: usize) -> &'a [u8] {
        match self.data.get(place) {
            Some(bytes) => bytes.as_slice(),
            None => &[],
        }
    }

    /// A number.
    pub fn number(self, place: usize) -> u64 {
        number(self.word(place))
    }

    /// The low four bytes of a number.
    pub fn small(self, place: usize) -> u32 {
        (self.number(place) & 0xffff_ffff) as u32
    }

    /// The low two bytes of a number.
    pub fn half(self, place: usize) -> u16 {
        (self.number(place) & 0xffff) as u16
    }

    /// The byte order of a word.
    pub fn order(self, place: usize) -> Endianness {
        order(self.word(place))
    }

    /// The format of a word.
    pub fn format(self, place: usize) -> Format {
        match self.word(place) {
            "wide" => Format::Dwarf64,
            _ => Format::Dwarf32,
        }
    }

    /// The section of a name of the enum's.
    pub fn kind(self, place: usize) -> SectionKind {
        kind(self.word(place))
    }
}

/// The byte order of a word.
pub fn order(word: &str) -> Endianness {
    match word {
        "big" => Endianness::Big,
        _ => Endianness::Little,
    }
}

/// The section of a name of the enum's; `Info` where there is none.
pub fn kind(word: &str) -> SectionKind {
    match word {
        "Types" => SectionKind::Types,
        "Abbrev" => SectionKind::Abbrev,
        "Line" => SectionKind::Line,
        "Loc" => SectionKind::Loc,
        "Loclists" => SectionKind::Loclists,
        "Rnglists" => SectionKind::Rnglists,
        "StrOffsets" => SectionKind::StrOffsets,
        "Macinfo" => SectionKind::Macinfo,
        "Macro" => SectionKind::Macro,
        "Str" => SectionKind::Str,
        "CuIndex" => SectionKind::CuIndex,
        "TuIndex" => SectionKind::TuIndex,
        _ => SectionKind::Info,
    }
}

/// The encoding of a word: `gnu`, `dwarf5` or `wide`, which is DWARF 5 of 64 bits.
pub fn encoding(word: &str) -> Encoding {
    let (version, format) = match word {
        "gnu" => (4, Format::Dwarf32),
        "wide" => (5, Format::Dwarf64),
        _ => (5, Format::Dwarf32),
    };
    Encoding {
        version,
        format,
        address_size: 8,
    }
}

fn digit(c: u8) -> u8 {
    match c {
        b'0'..=b'9' => c - b'0',
        b'a'..=b'f' => c - b'a' + 10,
        _ => 0,
    }
}

/// The number of decimal digits, or behind `0x` of hexadecimal ones.
pub fn number(word: &str) -> u64 {
    let (digits, base) = match word.strip_prefix("0x") {
        Some(digits) => (digits, 16),
        None => (word, 10),
    };
    let mut number: u64 = 0;
    for &c in digits.as_bytes() {
        number = number.wrapping_mul(base).wrapping_add(u64::from(digit(c)));
    }
    number
}

/// A number of at most four bytes, as a place.
pub fn place(word: &str) -> usize {
    (number(word) & 0xffff_ffff) as usize
}

/// The bytes of hexadecimal digits, two each.
pub fn bytes_of(alloc: Global, digits: &str) -> Result<Vec<u8>, AllocError> {
    let digits = digits.as_bytes();
    let mut bytes = Vec::from_elem(alloc, 0, digits.len() / 2)?;
    for i in 0..digits.len() / 2 {
        let byte = (digit(digits[2 * i]) & 15) << 4 | digit(digits[2 * i + 1]) & 15;
        set(&mut bytes, i, byte);
    }
    Ok(bytes)
}

/// Puts another byte at a place, where there is one.
fn set(bytes: &mut [u8], place: usize, byte: u8) {
    if place < bytes.len() {
        bytes[place] = byte;
    }
}

/// The bytes of a word of hexadecimal digits, or of a name with `@` before it, which stands with
/// its digits in a line of `named`; changes may follow, each a comma, a place, `=` and a byte.
pub fn bytes_of_word(alloc: Global, named: &str, word: &str) -> Result<Vec<u8>, AllocError> {
    let (digits, changes) = split(word, ",");
    let mut bytes = bytes_of(alloc, digits_of(named, digits))?;
    change(&mut bytes, changes);
    Ok(bytes)
}

/// The digits behind a name, or those that the word has itself.
fn digits_of<'a>(named: &'a str, word: &'a str) -> &'a str {
    if !word.starts_with('@') {
        return word;
    }
    let (_before, found) = split(named, word);
    let (line, _behind) = split(found, "\n");
    line.trim_start()
}

/// What stands before a part of a text and behind it; the text and nothing, where it hasn't the
/// part.
pub fn split<'a>(text: &'a str, part: &str) -> (&'a str, &'a str) {
    text.split_once(part).unwrap_or((text, ""))
}

/// Puts other bytes at some places.
pub fn change(bytes: &mut [u8], changes: &str) {
    for change in changes.split(',') {
        let (at, byte) = split(change, "=");
        if !byte.is_empty() {
            set(bytes, place(at), (number(byte) & 0xff) as u8);
        }
    }
}

/// Bytes, which print as hexadecimal digits: more than 48 of them in lines of their own.
#[derive(Clone, Copy)]
pub struct Hex<'a>(pub &'a [u8]);

impl Debug for Hex<'_> {
    fn fmt<W: fmt::Write>(&self, f: &mut fmt::Formatter<W>) -> fmt::Result {
        let bytes = self.0;
        for i in 0..bytes.len() {
            put_byte(f, bytes.len() > 48 && i % 48 == 0, bytes[i])?;
        }
        Ok(())
    }
}

/// Prints the digits of a byte, in a new line if it begins one.
fn put_byte<W: fmt::Write>(f: &mut fmt::Formatter<W>, begins: bool, byte: u8) -> fmt::Result {
    if begins {
        f.write_str("\n    ")?;
    }
    write!(f, "{byte:02x}")
}

/// Bytes, which print as text in quotes, or else as hexadecimal digits.
#[derive(Clone, Copy)]
pub struct Text<'a>(pub &'a [u8]);

impl Debug for Text<'_> {
    fn fmt<W: fmt::Write>(&self, f: &mut fmt::Formatter<W>) -> fmt::Result {
        match std::str::from_utf8(self.0) {
            Ok(text) => write!(f, "{text:?}"),
            Err(_) => Hex(self.0).fmt(f),
        }
    }
}

/// What is answered. Where memory was refused nothing more is added, and the program fails.
#[derive(Drop)]
pub struct Said {
    text: String,
    is_begun: bool,
    is_refused: bool,
}

impl Said {
    /// Nothing yet.
    pub fn new(alloc: Global) -> Said {
        Said {
            text: String::new(alloc),
            is_begun: false,
            is_refused: false,
        }
    }

    /// What was said.
    pub fn as_str(&self) -> &str {
        self.text.as_str()
    }

    /// The answers.
    pub fn finish(self) -> Result<String, AllocError> {
        if self.is_refused {
            return Err(AllocError);
        }
        Ok(self.text)
    }

    /// Notes that memory was refused, if it isn't so.
    pub fn note_that(&mut self, is_done: bool) {
        if !is_done {
            self.is_refused = true;
        }
    }

    /// Notes that memory was refused, if it was for other answers.
    pub fn note_said(&mut self, other: &Said) {
        self.note_that(!other.is_refused);
    }

    /// Adds other answers as they stand.
    pub fn add_said(&mut self, other: &Said) {
        self.add(other.text.as_str());
        self.note_said(other);
    }

    /// Adds a text as it stands.
    pub fn add(&mut self, text: &str) {
        let is_done = self.text.push_str(text).is_ok();
        self.note_that(is_done);
    }

    /// Adds what a value shows by Debug, as it stands.
    pub fn debug<T: Debug>(&mut self, value: &T) {
        let is_done = write!(self.text, "{value:?}").is_ok();
        self.note_that(is_done);
    }

    /// Adds what a value displays, as it stands.
    pub fn display<T: Display>(&mut self, value: &T) {
        let is_done = write!(self.text, "{value}").is_ok();
        self.note_that(is_done);
    }

    /// Adds a text and a number.
    pub fn number(&mut self, text: &str, number: u64) {
        self.add(text);
        self.display(&number);
    }

    /// Adds a number in hexadecimal, behind ` 0x`.
    pub fn in_hexadecimal(&mut self, number: u64) {
        let is_done = write!(self.text, " {number:#x}").is_ok();
        self.note_that(is_done);
    }

    /// Adds bytes in hexadecimal, in one line.
    pub fn hexadecimal(&mut self, bytes: &[u8]) {
        for byte in bytes {
            self.debug(&Hex(&[*byte]));
        }
    }

    /// Adds that something is wrong with a script.
    pub fn wrong(&mut self, what: &str, word: &str) {
        self.add("wrong ");
        self.add(what);
        self.add(": ");
        self.add(word);
        self.add("\n");
    }

    /// Begins with the answers of a row.
    pub fn begin(&mut self, line: &str) {
        self.add("\n");
        self.add(line);
        self.add("\n    ");
        self.is_begun = false;
    }

    fn separate(&mut self, separator: &str) {
        if self.is_begun {
            self.add(separator);
        }
        self.is_begun = true;
    }

    /// Adds an answer, behind `; ` where there is one before it.
    pub fn put<T: Debug>(&mut self, answer: &T) {
        self.separate("; ");
        self.debug(answer);
    }

    /// Adds the answer of a call that may be refused and isn't.
    pub fn ok<T: Debug>(&mut self, answer: &T) {
        self.word("Ok(");
        self.debug(answer);
        self.add(")");
    }

    /// Adds why such a call is refused.
    pub fn err<T: Debug>(&mut self, error: &T) {
        self.word("Err(");
        self.debug(error);
        self.add(")");
    }

    /// Adds a word in place of an answer.
    pub fn word(&mut self, word: &str) {
        self.separate("; ");
        self.add(word);
    }

    /// Adds an error and its text, in a line of their own behind the first.
    pub fn error<T: Debug + Display>(&mut self, error: &T) {
        self.separate("\n    ");
        self.debug(error);
        self.add(": ");
        self.display(error);
    }

    /// Adds bytes, or why there are none.
    pub fn bytes<E: Debug>(&mut self, bytes: &Result<Vec<u8>, E>) {
        match bytes {
            Ok(bytes) => self.put(&Hex(bytes)),
            Err(error) => self.put(error),
        }
    }

    /// Adds how many bytes there are, and these, or why there are none.
    pub fn sized<E: Debug>(&mut self, bytes: &Result<Vec<u8>, E>) {
        match bytes {
            Ok(bytes) => self.put(&(bytes.len(), Hex(bytes))),
            Err(error) => self.put(error),
        }
    }

    /// What was made, or the other where memory was refused.
    pub fn made<T: Drop>(&mut self, made: Result<T, AllocError>, other: T) -> T {
        match made {
            Ok(made) => made,
            Err(AllocError) => {
                self.is_refused = true;
                other
            }
        }
    }

    /// What was placed, or nothing where memory was refused.
    pub fn placed<'a, T>(&mut self, placed: Result<&'a [T], AllocError>) -> &'a [T] {
        match placed {
            Ok(placed) => placed,
            Err(AllocError) => {
                self.is_refused = true;
                &[]
            }
        }
    }

    /// Adds bytes to others.
    pub fn extend(&mut self, out: &mut Vec<u8>, bytes: &[u8]) {
        let is_done = out.extend_from_slice(bytes).is_ok();
        self.note_that(is_done);
    }

    /// The bytes of hexadecimal digits.
    pub fn bytes_of(&mut self, alloc: Global, digits: &str) -> Vec<u8> {
        self.made(bytes_of(alloc, digits), Vec::new(alloc))
    }
}
