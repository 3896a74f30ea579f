//! One walk over the sections of an input: all that is known of them.

ghost use Rattle.std.specs.Prelude.{◌≡◌, ◌&&◌, find, is_some, map};
ghost use Rattle.dwp_base.specs.declared.section.SectionKind.TheVariants as kinds;
ghost use Rattle.dwp_elf_read.specs.View.{elf, section as meaning};
ghost use Rattle.{std.specs.List.list_any, thorin_errors.specs.Answers.Gives};
ghost use Rattle.thorin_input.specs.Used as spec;
ghost use Rattle.thorin_input.specs.View as view;

use crate::object::{InputObject, UsedSection};
use dwp_base::SectionKind;
use dwp_elf_read::{ElfFile, ReadError, Section};
use std::alloc::Global;
use thorin_errors::Error;

/// What one walk over the sections of an input gives.
#[derive(Drop)]
pub struct Walked<'a> {
    /// Whether an info section of split units is there, in either spelling, an empty one too.
    pub with_units: bool,
    /// The used sections; `DecompressData` or `ObjectRead` for the first that can't be used.
    pub input: Result<InputObject<'a>, Error>,
}

/// The used sections so far, and which of the kinds that count once are among them.
#[derive(Drop)]
struct UsedSections<'a> {
    sections: Vec<UsedSection<'a>>,
    strings: bool,
    compilations: bool,
    types: bool,
    ghost strings_so_far: { strings
        ≡ list_any (spec.has_kind kinds.Str) (map view.used sections.items) },
    ghost compilations_so_far: { compilations
        ≡ list_any (spec.has_kind kinds.CuIndex) (map view.used sections.items) },
    ghost types_so_far: { types
        ≡ list_any (spec.has_kind kinds.TuIndex) (map view.used sections.items) },
}

/// The content of a section that is used: `DecompressData` where it is compressed, by its flag or
/// by its name, `ObjectRead` where it is outside the file.
#[tactic(auto, unfolding(crate::specs::Used::used_bytes, dwp_index::specs::Contents::used_bytes))]
fn used_bytes<'a>(section: &Section<'a>, kind: SectionKind) -> Result<&'a [u8], Error>
    ensures { Gives (λ bytes. bytes.now) result (spec.used_bytes kind (meaning section.now)) }
{
    if section.is_compressed() || section.has_older_name(kind) {
        return Err(Error::DecompressData(ReadError::Compressed));
    }
    section.data().map_err(Error::ObjectRead)
}

impl<'a> UsedSections<'a> {
    /// Whether only the first section of a kind counts, and there was one.
    #[tactic(auto, using(crate::proofs::Walking::kinds_used))]
    fn is_repeated(&self, kind: SectionKind) -> bool
        ensures { result ≡ (spec.counts_once kind
            && is_some (find (spec.has_kind kind) (map view.used self.now.sections.items))) }
    {
        match kind {
            SectionKind::Str => self.strings,
            SectionKind::CuIndex => self.compilations,
            SectionKind::TuIndex => self.types,
            _ => false,
        }
    }

    /// Adds a section, where it is used.
    #[tactic(auto, using(crate::proofs::Walking::kinds_used))]
    fn add(&mut self, section: &Section<'a>) -> Result<(), Error>
        ensures { Gives (λ _. map view.used self.new.sections.items) result
            (spec.with_used (map view.used self.old.sections.items) (meaning section.now)
            (spec.used_kind (meaning section.now))) }
    {
        if section.is_empty() {
            return Ok(());
        }
        let Some(kind) = section.section_kind() else {
            return Ok(());
        };
        if self.is_repeated(kind) {
            return Ok(());
        }
        let bytes = used_bytes(section, kind)?;
        self.sections.push(UsedSection {
            kind,
            bytes,
            address: section.address(),
        })?;
        self.strings |= kind.is(SectionKind::Str);
        self.compilations |= kind.is(SectionKind::CuIndex);
        self.types |= kind.is(SectionKind::TuIndex);
        Ok(())
    }
}

impl<'a> Walked<'a> {
    /// What the sections of a file give. Without an info section no error of another section
    /// counts, so it is kept aside.
    pub fn over(alloc: Global, file: &ElfFile<'a>) -> Walked<'a>
        ensures units { result.with_units ≡ spec.has_info (elf file.now) }
        ensures input { Gives view.object result.input (spec.input_file_of (elf file.now)) }
    {
        let mut with_units = false;
        let mut has_strings = false;
        let mut has_abbreviations = false;
        let mut fault = None;
        let mut used = UsedSections {
            sections: Vec::new(alloc),
            strings: false,
            compilations: false,
            types: false,
        };
        for section in file.sections() {
            if fault.is_none() {
                fault = used.add(&section).err();
            }
            with_units |= section.is_of(SectionKind::Info);
            has_strings |= section.is_called(SectionKind::Str.name());
            has_abbreviations |= section.is_called(SectionKind::Abbrev.name());
        }
        let UsedSections {
            sections,
            compilations,
            types,
            ..
        } = used;
        let input = match fault {
            Some(error) => Err(error),
            None => Ok(InputObject {
                order: file.endianness(),
                sections,
                has_strings,
                has_abbreviations,
                plain: !(compilations | types),
            }),
        };
        Walked { with_units, input }
    }
}
