//! What the calls answered, counted.

use test_rows::Said;

/// The names of the calls, and the number of each.
const CALLS: [&str; 22] = [
    "FileKind::parse",
    "ElfFile::parse",
    "Section::name",
    "Section::data",
    "Relocations",
    "ElfFile::symbol_value",
    "UnitHeaders",
    "Abbreviations::new",
    "root",
    "Attributes",
    "attr_string",
    "UnitIndex::parse",
    "UnitIndex::row",
    "PackageFile::parse",
    "PackageFile::find_counted",
    "PackagedUnit::string",
    "DwarfPackage::add_object_bytes",
    "skeletons",
    "DwarfPackage::add_executable",
    "DwarfPackage::finish",
    "pack",
    "pack_groups",
];

pub const KIND: usize = 0;

pub const FILE: usize = 1;

pub const NAME: usize = 2;

pub const CONTENT: usize = 3;

pub const RELOCATION: usize = 4;

pub const SYMBOL: usize = 5;

pub const UNIT: usize = 6;

pub const TABLE: usize = 7;

pub const ROOT: usize = 8;

pub const ATTRIBUTE: usize = 9;

pub const TEXT: usize = 10;

pub const INDEX: usize = 11;

pub const ROW: usize = 12;

pub const PACKAGE: usize = 13;

pub const FOUND: usize = 14;

pub const STRING: usize = 15;

pub const OBJECT: usize = 16;

pub const SKELETONS: usize = 17;

pub const EXECUTABLE: usize = 18;

pub const FINISH: usize = 19;

pub const PACKED: usize = 20;

pub const GROUPS: usize = 21;

/// What the calls did.
#[derive(Drop)]
pub struct Tally {
    /// Of each call how often it answered, and how often it named an error.
    answers: [u64; 22],
    errors: [u64; 22],
    /// How often two calls that say the same said something else, or memory ran out.
    pub contradictions: u64,
}

impl Tally {
    pub fn new() -> Tally {
        Tally {
            answers: [0; 22],
            errors: [0; 22],
            contradictions: 0,
        }
    }

    /// Counts a call by its number.
    pub fn note(&mut self, call: usize, answered: bool) {
        if call < 22 {
            if answered {
                self.answers[call] = self.answers[call].saturating_add(1);
            } else {
                self.errors[call] = self.errors[call].saturating_add(1);
            }
        }
    }

    /// Counts a contradiction where something doesn't hold.
    pub fn expect(&mut self, holds: bool) {
        if !holds {
            self.contradictions = self.contradictions.saturating_add(1);
        }
    }

    /// Says which kinds of outcome each call had, the contradictions, and where it is asked how
    /// many calls there were.
    pub fn tell(&self, counts: bool, said: &mut Said) {
        let mut calls: u64 = 0;
        for call in 0..22 {
            let (answers, errors) = (self.answers[call], self.errors[call]);
            calls = calls.saturating_add(answers).saturating_add(errors);
            said.add(CALLS[call]);
            said.add(match (answers, errors) {
                (0, 0) => ": no call\n",
                (_, 0) => ": answers alone\n",
                (0, _) => ": errors alone\n",
                _ => ": answers and errors\n",
            });
        }
        said.number("contradictions: ", self.contradictions);
        said.add("\n");
        if counts {
            said.number("calls: ", calls);
            said.add("\n");
        }
    }
}
