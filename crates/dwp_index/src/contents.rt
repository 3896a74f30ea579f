//! The contents of a package's sections (DWARF 5, 7.3.5).

ghost use Rattle.std.specs.Prelude.{IfSome, IsTrue, slice_get, Some, ◌≡◌};
ghost use Rattle.dwp_base.specs.{declared.section.SectionKind.SectionKind, Reading.Answers};
ghost use Rattle.dwp_elf_read.specs.View.{elf, section};
ghost use Rattle.dwp_index.specs.Contents.{bytes_of, content, contents_of, is_of_kind};
ghost use Rattle.dwp_index.specs.Firsts.{first_in, found_in, found_with};
ghost use Rattle.{dwp_index.specs.ContentFields.contents_in, std.specs.List.find};

use dwp_base::{ByKind, SectionKind};
use dwp_elf_read::{ElfFile, ReadError, Section};

/// The content of the first section of each kind that isn't empty; no bytes where there is none.
#[derive(Clone, Copy)]
pub(crate) struct Contents<'a> {
    by_kind: ByKind<&'a [u8]>,
}

/// The first section of each kind that has bytes, and its number, by one walk over the sections.
pub fn first_sections<'a>(file: &ElfFile<'a>) -> ByKind<Option<(usize, Section<'a>)>>
    ensures first { (kind : SectionKind) → first_in result kind
        ≡ find (is_of_kind kind) (elf file.now).sections }
    ensures there { (kind : SectionKind) → IfSome (found_in result kind) (λ found.
        slice_get (elf file.now).sections found.0 ≡ Some (section found.1)) }
    ensures filled { (kind : SectionKind) → IfSome (found_in result kind) (λ found.
        IsTrue (is_of_kind kind (section found.1))) }
{
    let mut firsts = ByKind::same(None);
    for i in 0..file.section_count() {
        if let Some(next) = file.section(i) {
            meet(&mut firsts, i, &next);
        }
    }
    firsts
}

/// Notes a section that was met, where it has bytes and is the first of its kind.
#[tactic(auto, using(crate::proofs::Packages::kinds))]
fn meet<'a>(firsts: &mut ByKind<Option<(usize, Section<'a>)>>, number: usize, next: &Section<'a>)
    ensures { (kind : SectionKind) → found_in firsts.new kind
        ≡ found_with kind (found_in firsts.old kind) number next.now }
{
    if next.is_empty() {
        return;
    }
    if let Some(kind) = next.section_kind() {
        if firsts.get(kind).is_none() {
            firsts.set(kind, Some((number, *next)));
        }
    }
}

/// The content of the section of a kind that was met first; none where there is no such section.
#[tactic(auto, unfolding(crate::specs::Contents::used_bytes))]
fn content_of_first<'a>(
    firsts: &ByKind<Option<(usize, Section<'a>)>>,
    kind: SectionKind,
) -> Result<&'a [u8], ReadError>
    ensures { Answers (λ bytes. bytes.now) result (bytes_of kind (first_in firsts.now kind)) }
{
    let Some((_, used)) = firsts.get(kind) else {
        return Ok(&[]);
    };
    if used.is_compressed() || used.has_older_name(kind) {
        return Err(ReadError::Compressed);
    }
    used.data()
}

impl<'a> Contents<'a> {
    /// The contents of a file. Errors: `Compressed` or `SectionRange` for the first, in order of
    /// kind, that can't be used.
    #[tactic(auto, unfolding(crate::specs::Contents::contents_of))]
    pub fn read(file: &ElfFile<'a>) -> Result<Contents<'a>, ReadError>
        ensures { Answers contents_in result (contents_of (elf file.now).sections) }
    {
        let firsts = first_sections(file);
        match ByKind::read(&[][..], |kind| content_of_first(&firsts, kind)) {
            Ok(by_kind) => Ok(Contents { by_kind }),
            Err(e) => Err(e),
        }
    }

    /// The content of a kind.
    #[inline(always)]
    pub fn of(&self, kind: SectionKind) -> &'a [u8]
        ensures { result.now ≡ content (contents_in self.now) kind }
    {
        self.by_kind.get(kind)
    }
}
