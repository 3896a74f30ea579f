//! Abbreviations that are looked up by table and code, and remembered once much was read (DWARF 5,
//! 7.5.3).
#![tactic(auto, using(crate::proofs::Places::none_each))]

ghost use Rattle.std.specs.Prelude.{Err, Ok, option_map, true, ◌≡◌};
ghost use Rattle.dwp_base.specs.Reading.{Answers};
ghost use Rattle.dwp_bytes.specs.{declared.error.ReadError.ReadError, Input.front, Input.Input};
ghost use Rattle.dwp_dwarf.specs.{Abbreviations.declaration, Declarations.found_of, Split.split_at};
ghost use Rattle.dwp_dwarf.specs.{Chains.IsDeclared, Offsets.from_at, Split.attributes_of};
ghost use Rattle.dwp_dwarf.specs.Numbers.{numbered_at, numbered_of};

use crate::abbrev::{Abbreviation, find_declaration, from_offset};
use crate::chains::Chains;
use crate::needed::number_read;
use crate::split::{SplitAttributes, split_read};
use dwp_bytes::{Encoding, ReadError, Reader};
use std::alloc::Global;
use std::marker::Model;

/// The abbreviations of a section, and what its tables say, which is remembered once much was read
/// of them: units that use one table, or several by turns, don't read each again and again. It
/// answers as `Abbreviations` does, also where there is no memory to remember more.
#[derive(Drop)]
pub struct AbbreviationCache<R: Reader> {
    section: R,
    // How many bytes were read of tables, but for what is remembered.
    read: usize,
    // What tables say, by places of the section, once much was read, or where a declaration ends
    // was asked.
    chains: Chains,
}

/// How often a section's bytes are read before what tables say is remembered.
const READ_AT_MOST: usize = 2;

/// An entry's tag, and the number of an attribute of it.
#[derive(Clone, Copy, Debug)]
pub struct EntryNumber {
    /// What the entry describes, as `DW_TAG_compile_unit`, 0x11.
    pub tag: u64,
    /// The number, or the first error before it. None where no attribute of the name has a number.
    pub number: Result<Option<u64>, ReadError>,
}

impl<R: Reader> Model for AbbreviationCache<R> {
    ghost use Rattle.dwp_dwarf.specs.Chains.{RemembersChains};

    // Contracts see the section.
    ghost Value = { R };

    ghost view = { λ c. c.section };

    ghost invariant = { λ c. RemembersChains (R.input c.section) c.chains };
}

impl<R: Reader> AbbreviationCache<R> {
    /// The tables of a section of abbreviations. Nothing is read yet, and no memory is taken.
    pub fn new(alloc: Global, section: R) -> AbbreviationCache<R>
        ensures { result ≡ section }
    {
        AbbreviationCache {
            section,
            read: 0,
            chains: Chains::new(alloc),
        }
    }

    /// The section.
    pub fn section(&self) -> R
        ensures { result ≡ self.now }
    {
        self.section
    }

    /// What `Abbreviations::get` says of a code in the table at that offset of the section.
    ///
    /// A table is read up to the code, so one that is used once costs no more than reading it. Once
    /// more was read than two times the section, a table is read to its end, and what it says is
    /// remembered from each of its declarations on, for all tables that go on alike from there.
    /// That takes some five nodes of 12 bytes for each byte of the section, and 20 bytes for each
    /// place. Errors: `OffsetOutOfRange` past the section's end, and those of `Abbreviations::get`.
    /// Want of memory is never met.
    pub fn get(&mut self, offset: u64, code: u64) -> Result<Option<Abbreviation<R>>, ReadError>
        ensures declared { (table : Input) → from_at offset (R.input self.old) ≡ Ok table
            → Answers (found_of R.input) result (declaration code table) }
        ensures outside { (e : ReadError) → from_at offset (R.input self.old) ≡ Err e
            → result ≡ Err e }
        ensures kept { self.new ≡ self.old }
    {
        let start = from_offset(self.section, offset)?;
        if self.read > self.section.len().saturating_mul(READ_AT_MOST) {
            if let Some(said) = self.chains.get(self.section, offset, code) {
                return said;
            }
        }
        let mut rest = start;
        let found = find_declaration(&mut rest, code);
        let left = if found.is_err() { 0 } else { rest.len() };
        self.read = self.read.saturating_add(start.len().saturating_sub(left));
        found
    }

    /// The tag of the entry of a code in the table at that offset, whose values stand there, and
    /// the number of its first attribute of a name whose form is data1, data2, data4, data8 or
    /// udata; None where the table doesn't have the code.
    ///
    /// Once the code's declaration is remembered, its attributes are listed, where there is memory
    /// for it, but for those whose values have no bytes; the first DW_AT_dwo_name,
    /// DW_AT_GNU_dwo_name and DW_AT_comp_dir are listed anyway, for `split_in`. Such an entry then
    /// takes as many steps as it has bytes, and a few more. All tables share the lists, until these
    /// have an attribute for two bytes of the section. Errors: those of `get`.
    pub fn number_in(
        &mut self,
        offset: u64,
        code: u64,
        encoding: Encoding,
        values: R,
        name: u64,
    ) -> Result<Option<EntryNumber>, ReadError>
        ensures numbered { (table : Input) → from_at offset (R.input self.old) ≡ Ok table → Answers
            (option_map numbered_of) result (numbered_at name encoding (R.input values) code table) }
        ensures outside { (e : ReadError) → from_at offset (R.input self.old) ≡ Err e
            → result ≡ Err e }
        ensures kept { self.new ≡ self.old }
    {
        let Some(abbreviation) = self.get(offset, code)? else {
            return Ok(None);
        };
        let number = match self.chains.first_of(self.section, offset, code) {
            Some(first) => {
                let lists = &mut self.chains.lists;
                lists.number(first, abbreviation, encoding, values, name)
            }
            None => number_read(abbreviation.entry(encoding, values), name),
        };
        Ok(Some(EntryNumber {
            tag: abbreviation.tag,
            number,
        }))
    }

    /// The attributes that name the split object of the entry of a code in the table at that
    /// offset, whose values stand there; None where the table doesn't have the code. What is listed
    /// of a declaration is as at `number_in`, and an entry costs as much. Errors: those of `get`;
    /// `UnknownForm`, `BigLeb`, `UnexpectedEof` or `NoTerminator` for the first of all attributes
    /// of the entry that can't be read.
    pub fn split_in(
        &mut self,
        offset: u64,
        code: u64,
        encoding: Encoding,
        values: R,
    ) -> Result<Option<SplitAttributes<R>>, ReadError>
        ensures split { (table : Input) → from_at offset (R.input self.old) ≡ Ok table → Answers
            (option_map (attributes_of R.input)) result
            (split_at encoding (R.input values) code table) }
        ensures outside { (e : ReadError) → from_at offset (R.input self.old) ≡ Err e
            → result ≡ Err e }
        ensures kept { self.new ≡ self.old }
    {
        let Some(declared) = self.get(offset, code)? else {
            return Ok(None);
        };
        let split = match self.chains.first_of(self.section, offset, code) {
            Some(first) => {
                let lists = &mut self.chains.lists;
                lists.split(first, declared, encoding, values)?
            }
            None => split_read(declared.entry(encoding, values), encoding.format)?,
        };
        Ok(Some(split))
    }

    /// Whether the table at an offset is known to have a declaration of a code that ends within the
    /// first `end` bytes of the section: so does then the table there of the section's part up to
    /// there, and it is the same. To know it, the table is read to its end, once for all tables
    /// that go on alike, and remembered by places. False too for want of memory, where as many
    /// nodes are remembered as may be, and before the last 4 GiB of a section.
    pub fn declares_within(&mut self, offset: u64, code: u64, end: usize) -> bool
        ensures declared { result ≡ true → (whole : Input)
            → from_at offset (R.input self.old) ≡ Ok whole → IsDeclared code whole }
        ensures same { result ≡ true → (part whole : Input)
            → from_at offset (front end (R.input self.old)) ≡ Ok part → from_at offset
            (R.input self.old) ≡ Ok whole → declaration code part ≡ declaration code whole }
        ensures kept { self.new ≡ self.old }
    {
        let Some(left) = self.chains.left_behind(self.section, offset, code) else {
            return false;
        };
        self.section.len() as u64 <= left.saturating_add(end as u64)
    }
}
