//! Whether a file means what the decompressed one is to mean.

ghost use Rattle.dwp_elf_read.specs.View as view;
ghost use Rattle.std.specs.Prelude.{codes, drop, IsTrue, option_map, take, ◌++◌, ◌<◌, ◌≡◌};
ghost use Rattle.dwp_elf_read.specs.View.{elf};
ghost use Rattle.dwp_decompress.specs.{Names.plain_name, Result.result_section};
ghost use Rattle.dwp_decompress.specs.Agreement.{expected_file};

use crate::asked::is_older;
use dwp_elf_read::{ElfFile, Section};

/// What the decompressed file is to have.
#[derive(Clone, Copy)]
pub struct Expected<'a> {
    /// The number of the section with the names.
    pub names: usize,
    /// The names that it gets.
    pub added: &'a [u8],
    /// The plain contents of the sections, in order.
    pub contents: &'a Vec<Option<Vec<u8>>>,
}

/// Whether a name begins as plain ones do, and goes on as an older one.
fn goes_on(old: &[u8], new: &[u8]) -> bool
    ensures { IsTrue result → (take 7 new.now ≡ codes ".debug_")
        × (drop 7 new.now ≡ drop 8 old.now) }
{
    new.len() >= 7
        && old.len() >= 8
        && new.split_at(7).0 == b".debug_".as_slice()
        && new.split_at(7).1 == old.split_at(8).1
}

/// Whether a name is the plain one of another.
fn is_plain_name(old: &str, new: &str) -> bool
    ensures { IsTrue result → new.now ≡ plain_name old.now }
{
    if is_older(old) {
        goes_on(old.as_bytes(), new.as_bytes())
    } else {
        new == old
    }
}

/// Whether the name is the plain one of the other, or can be read in neither.
fn plain_name(old: &Section<'_>, new: &Section<'_>) -> bool
    ensures { IsTrue result
        → (view.section new.now).name ≡ option_map plain_name (view.section old.now).name }
{
    match (old.name(), new.name()) {
        (Ok(name), Ok(own)) => is_plain_name(name, own),
        (Err(_), Err(_)) => true,
        _ => false,
    }
}

/// Whether the content has grown by these bytes, or lies outside of the file in both.
fn grown_content(old: &Section<'_>, new: &Section<'_>, added: &[u8]) -> bool
    ensures { IsTrue result → (view.section new.now).content
        ≡ option_map (λ names. names ++ added.now) (view.section old.now).content }
{
    match (old.data(), new.data()) {
        (Ok(content), Ok(own)) => {
            own.len() >= content.len()
                && own.split_at(content.len()).0 == content
                && own.split_at(content.len()).1 == added
        }
        (Err(_), Err(_)) => true,
        _ => false,
    }
}

impl<'a> Expected<'a> {
    /// Whether a section is what another is to become: it with its plain content, with names added,
    /// or as it is.
    #[tactic(auto, unfolding(crate::specs::Result::result_section, crate::specs::Result::with_plain, crate::specs::Result::plain_flags, crate::specs::Result::with_names), using(dwp_elf_read::proofs::Compared::is_own))]
    fn is_result(&self, old: &Section<'_>, new: &Section<'_>, plain: &Option<Vec<u8>>) -> bool
        ensures { IsTrue result → view.section new.now
            ≡ result_section self.now.names self.now.added.now (view.section old.now)
            (option_map (λ plain. plain.items) plain.now) }
    {
        match plain {
            Some(plain) => {
                new.has_numbers_of(old)
                    && plain_name(old, new)
                    && new.flags() == old.flags() & 0xffff_ffff_ffff_f7ff
                    && new.size() == plain.len() as u64
                    && new.has_content(plain.as_slice())
            }
            None if old.number() == self.names => {
                new.has_numbers_of(old)
                    && new.has_name_of(old)
                    && new.flags() == old.flags()
                    && new.size() >= old.size()
                    && new.size() - old.size() == self.added.len() as u64
                    && grown_content(old, new, self.added)
            }
            None => new.is_same(old),
        }
    }

    /// Whether a file is what another is to become.
    #[tactic(auto, unfolding(crate::specs::Result::result_file), using(dwp_elf_read::proofs::Compared::same_file))]
    pub fn agrees(&self, old: &ElfFile<'_>, new: &ElfFile<'_>) -> bool
        ensures { IsTrue result → elf new.now ≡ expected_file self.now (elf old.now) }
    {
        let count = old.section_count();
        if !new.is_like(old) || new.section_count() != count || self.contents.len() != count {
            return false;
        }
        for i in 0..count {
            let (Some(before), Some(after)) = (old.section(i), new.section(i)) else {
                return false;
            };
            if !self.is_result(&before, &after, &self.contents[i]) {
                return false;
            }
        }
        true
    }
}
