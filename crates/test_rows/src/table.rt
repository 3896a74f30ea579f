//! The table of named bytes of a script, and the words that write bytes.
//!
//! A word is hexadecimal digits, a text between quotation marks, a name, or a part of what a name
//! has, `name[from..to]` with places in decimal; with `*count` behind it stands so often. What is
//! wrong with a line is said, so that it isn't what must be printed.

use crate::row::{Said, place, split};
use std::alloc::Global;

/// Bytes with their name.
#[derive(Drop)]
struct Named<'n> {
    name: &'n str,
    bytes: Vec<u8>,
}

/// Bytes by their names, which are words of a script. There are few, so they are looked for one
/// after another.
#[derive(Drop)]
pub struct Table<'n> {
    alloc: Global,
    all: Vec<Named<'n>>,
}

/// The bytes from one place to another; none where they aren't there.
pub fn part(bytes: &[u8], from: usize, to: usize) -> &[u8] {
    bytes.get(from..to).unwrap_or(&[])
}

impl<'n> Table<'n> {
    /// A table of no names.
    pub fn new(alloc: Global) -> Table<'n> {
        Table {
            alloc,
            all: Vec::new(alloc),
        }
    }

    /// Gives bytes a name, which may have had others.
    pub fn keep(&mut self, name: &'n str, bytes: Vec<u8>, said: &mut Said) {
        let is_done = self.all.push(Named { name, bytes }).is_ok();
        said.note_that(is_done);
    }

    /// Gives a copy of bytes a name.
    pub fn keep_copy(&mut self, name: &'n str, bytes: &[u8], said: &mut Said) {
        let copy = said.made(bytes.to_vec(self.alloc), Vec::new(self.alloc));
        self.keep(name, copy, said);
    }

    /// The bytes that a name has got last.
    pub fn named(&self, name: &str) -> Option<&[u8]> {
        let mut found: Option<&[u8]> = None;
        for i in 0..self.all.len() {
            if self.all[i].name == name {
                found = Some(self.all[i].bytes.as_slice());
            }
        }
        found
    }

    /// The bytes of a name, or the part of them that the word says.
    pub fn get(&self, word: &str, said: &mut Said) -> &[u8] {
        let (name, places) = split(word, "[");
        match self.named(name) {
            Some(bytes) => part_of(bytes, places, said),
            None => {
                said.wrong("name", name);
                &[]
            }
        }
    }

    /// What each of these words has.
    pub fn all<'t>(&'t self, words: &[&str], said: &mut Said) -> Vec<&'t [u8]> {
        let mut all = Vec::new(self.alloc);
        for i in 0..words.len() {
            let bytes = self.get(words[i], said);
            said.note_that(all.push(bytes).is_ok());
        }
        all
    }

    /// The bytes that words write, joined.
    pub fn joined(&self, words: &[&str], said: &mut Said) -> Vec<u8> {
        let mut bytes = Vec::new(self.alloc);
        for i in 0..words.len() {
            let (word, count) = split(words[i], "*");
            let count = if count.is_empty() { 1 } else { place(count) };
            for _ in 0..count {
                self.put(word, &mut bytes, said);
            }
        }
        bytes
    }

    /// Adds the bytes that a word writes.
    fn put(&self, word: &str, bytes: &mut Vec<u8>, said: &mut Said) {
        let (front, quoted) = split(word, "\"");
        if front.is_empty() {
            said.extend(bytes, split(quoted, "\"").0.as_bytes());
        } else if self.named(split(word, "[").0).is_some() {
            let part = self.get(word, said);
            said.extend(bytes, part);
        } else {
            self.put_digits(word, bytes, said);
        }
    }

    /// Adds the bytes that hexadecimal digits write.
    fn put_digits(&self, word: &str, bytes: &mut Vec<u8>, said: &mut Said) {
        if !are_digits(word.as_bytes()) {
            said.wrong("digits", word);
        }
        let digits = said.bytes_of(self.alloc, word);
        said.extend(bytes, &digits);
    }

    /// `bytes NAME = WORD..`
    pub fn define(&mut self, words: &[&'n str], said: &mut Said) {
        if let [name, "=", words @ ..] = words {
            let bytes = self.joined(words, said);
            self.keep(name, bytes, said);
        } else {
            said.wrong("line", "bytes");
        }
    }

    /// `patch NAME FROM PLACE WORD..`: the bytes of FROM, with others from a place on.
    pub fn patch(&mut self, words: &[&'n str], said: &mut Said) {
        if let [name, words @ ..] = words {
            let bytes = self.damaged(words, said);
            self.keep(name, bytes, said);
        }
    }

    /// The bytes of a name, with those that words write from a place on.
    pub fn damaged(&self, words: &[&str], said: &mut Said) -> Vec<u8> {
        if let [name, at, words @ ..] = words {
            let new = self.joined(words, said);
            self.patched(self.get(name, said), place(at), &new, said)
        } else {
            said.wrong("line", "patch");
            Vec::new(self.alloc)
        }
    }

    /// `replace NAME FROM OLD NEW`: the bytes of FROM, in which the first place of OLD has NEW,
    /// which is no longer.
    pub fn replace(&mut self, words: &[&'n str], said: &mut Said) {
        if let [name, from, old, new] = words {
            let from = self.get(from, said);
            let place = place_of(from, self.get(old, said));
            let bytes = self.patched(from, place, self.get(new, said), said);
            self.keep(name, bytes, said);
        } else {
            said.wrong("line", "replace");
        }
    }

    /// Bytes with others from a place on, which are there.
    fn patched(&self, bytes: &[u8], place: usize, new: &[u8], said: &mut Said) -> Vec<u8> {
        let behind = place.saturating_add(new.len());
        if behind > bytes.len() {
            said.wrong("line", "no such place");
        }
        let mut patched = Vec::new(self.alloc);
        said.extend(&mut patched, part(bytes, 0, place));
        said.extend(&mut patched, new);
        said.extend(&mut patched, part(bytes, behind, bytes.len()));
        patched
    }

    /// `show WORD..`: bytes in hexadecimal. `size WORD..`: how many there are.
    pub fn show(&self, shows: bool, words: &[&str], said: &mut Said) {
        let bytes = self.joined(words, said);
        if shows {
            said.hexadecimal(&bytes);
        } else {
            said.number("", bytes.len() as u64);
        }
        said.add("\n");
    }

    /// `same NAME NAME`: whether both have the same bytes.
    pub fn same(&self, words: &[&str], said: &mut Said) {
        if let [one, other] = words {
            let is_same = self.get(one, said) == self.get(other, said);
            said.add(if is_same { "true\n" } else { "false\n" });
        } else {
            said.wrong("line", "same");
        }
    }
}

/// Whether these are hexadecimal digits, two for each byte.
fn are_digits(word: &[u8]) -> bool {
    let mut is_right = word.len() % 2 == 0;
    for digit in word {
        is_right = is_right && matches!(digit, b'0'..=b'9' | b'a'..=b'f');
    }
    is_right
}

/// The part of bytes between two places, as `from..to]`; all where there are none.
fn part_of<'a>(bytes: &'a [u8], places: &str, said: &mut Said) -> &'a [u8] {
    if places.is_empty() {
        return bytes;
    }
    let (from, to) = split(split(places, "]").0, "..");
    match bytes.get(place(from)..place(to)) {
        Some(part) => part,
        None => {
            said.wrong("place", places);
            &[]
        }
    }
}

/// The first place of these bytes; no place where they aren't there.
fn place_of(bytes: &[u8], sought: &[u8]) -> usize {
    for place in 0..bytes.len() {
        if part(bytes, place, place.saturating_add(sought.len())) == sought {
            return place;
        }
    }
    usize::MAX
}
