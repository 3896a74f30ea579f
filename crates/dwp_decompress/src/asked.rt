//! Which compressed sections become plain (ELF gABI, "Section Attribute Flags").

ghost use Rattle.dwp_elf_read.specs.View as view;
ghost use Rattle.std.specs.Prelude.{◌||◌, ◌≡◌};
ghost use Rattle.dwp_elf_read.specs.{Elf.is_named, View.elf};
ghost use Rattle.dwp_decompress.specs.Asked.{is_asked};
ghost use Rattle.dwp_decompress.specs.Compressed.{has_compressed, is_compressed, is_older};

use dwp_elf_read::{ElfFile, Section};

/// Which compressed sections become plain.
#[derive(Clone, Copy)]
pub enum Asked {
    /// All of them.
    All,
    /// Those whose names readers of units ask for: the kinds of sections (`SectionKind`), and of an
    /// executable `.debug_abbrev`, `.debug_info`, `.debug_line_str`, `.debug_str` and
    /// `.debug_str_offsets`, each in either spelling.
    OfUnits,
}

/// Whether a section has one of two names.
fn is_either(section: &Section<'_>, name: &str, older: &str) -> bool
    ensures { result ≡ (is_named name.now (view.section section.now)
        || is_named older.now (view.section section.now)) }
{
    section.is_called(name) || section.is_called(older)
}

/// Whether a section is asked for. No more of a long name is looked at than those are long.
#[tactic(auto, unfolding(crate::specs::Asked::is_asked))]
fn is_asked(asked: Asked, section: &Section<'_>) -> bool
    ensures { result ≡ is_asked asked (view.section section.now) }
{
    match asked {
        Asked::All => true,
        Asked::OfUnits => {
            section.section_kind().is_some()
                || is_either(section, ".debug_abbrev", ".zdebug_abbrev")
                || is_either(section, ".debug_info", ".zdebug_info")
                || is_either(section, ".debug_line_str", ".zdebug_line_str")
                || is_either(section, ".debug_str", ".zdebug_str")
                || is_either(section, ".debug_str_offsets", ".zdebug_str_offsets")
        }
    }
}

/// Whether a name is of the older form.
#[tactic(auto, unfolding(crate::specs::Compressed::is_older))]
pub fn is_older(name: &str) -> bool
    ensures { result ≡ is_older name.now }
{
    name.as_bytes().starts_with(b".zdebug_")
}

/// Whether a section's content is asked for, and compressed.
#[tactic(auto, unfolding(crate::specs::Compressed::is_compressed, crate::specs::Compressed::holds_bytes))]
pub fn is_compressed(asked: Asked, section: &Section<'_>) -> bool
    ensures { result ≡ is_compressed asked (view.section section.now) }
{
    section.number() != 0
        && !section.is_empty()
        && is_asked(asked, section)
        && (section.is_compressed() || matches!(section.name(), Ok(name) if is_older(name)))
}

/// Whether some section's is.
#[tactic(auto, using(crate::proofs::Sections::any_hit, crate::proofs::Sections::any_miss, dwp_base::proofs::Finds::slice_get_none))]
pub fn has_compressed(asked: Asked, file: &ElfFile<'_>) -> bool
    ensures { result ≡ has_compressed asked (elf file.now).sections }
{
    for i in 0..file.section_count() {
        if let Some(section) = file.section(i) {
            if is_compressed(asked, &section) {
                return true;
            }
        }
    }
    false
}
