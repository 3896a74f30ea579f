//! What an input adds to the sections of a package beside its units: contents that are copied, and
//! string offsets that are rewritten.

ghost use Rattle.thorin_input.specs.Format as formats;
ghost use Rattle.thorin_input.specs.InputStrings as input_strings;
ghost use Rattle.thorin_input.specs.Parts as spec;
ghost use Rattle.std.specs.Prelude.{IfErr, length, map, OnOk, take, ◌≡◌};
ghost use Rattle.dwp_base.specs.declared.section.SectionKind.TheVariants.{Str};
ghost use Rattle.dwp_elf.specs.{FileText.Object, Growing.IsGrown, Growing.with_bytes};
ghost use Rattle.thorin_errors.specs.Answers.{Gives};
ghost use Rattle.thorin_strings.specs.Known.{AreKnown};
ghost use Rattle.thorin_input.specs.{Parts.with_parts, Used.first};
ghost use Rattle.thorin_input.specs.View as view;

use crate::object::UsedSection;
use crate::source::Source;
use dwp_base::SectionKind;
use dwp_dwarf::Encoding;
use dwp_elf::WritableObject;
use dwp_table::column_of;
use std::alloc::Global;
use thorin_errors::Error;
use thorin_package_input::remap_packaged_offsets;
use thorin_strings::{PackageStringTable, Repeats, StringOffsets};

/// The bytes of a part: those of the input, or string offsets that were rewritten.
#[derive(Drop)]
pub enum PartBytes<'a> {
    /// Those of the input.
    Copied(&'a [u8]),
    /// String offsets, rewritten.
    Rewritten(Vec<u8>),
}

/// What is added to a section of the package.
#[derive(Drop)]
pub struct Part<'a> {
    /// The section that it is added to.
    pub kind: SectionKind,
    /// What is added.
    pub bytes: PartBytes<'a>,
}

impl<'a> Part<'a> {
    /// Its bytes.
    pub fn bytes(&self) -> &[u8]
        ensures { result.now ≡ (view.part self.now).1 }
    {
        match &self.bytes {
            PartBytes::Copied(bytes) => bytes,
            PartBytes::Rewritten(bytes) => bytes,
        }
    }
}

/// What is gathered of an input: its parts so far, and those of its strings that are remembered.
#[derive(Drop)]
struct Gathering<'a> {
    parts: Vec<Part<'a>>,
    repeats: Repeats,
}

/// Whether packages of an encoding's version have a section of this kind: one that units have
/// contributions to where an index of that version has a column for it, any other in each version.
fn is_in_format(encoding: Encoding, kind: SectionKind) -> bool
    ensures { result ≡ formats.is_in_format encoding kind }
{
    match kind {
        SectionKind::Str | SectionKind::CuIndex | SectionKind::TuIndex => true,
        _ => column_of(encoding.dwarf_package_index_version(), kind).is_some(),
    }
}

/// Whether a section goes to the package whole and as it is.
fn is_copied(kind: SectionKind) -> bool
    ensures { result ≡ formats.is_copied kind }
{
    match kind {
        SectionKind::Info | SectionKind::Types | SectionKind::StrOffsets => false,
        SectionKind::Str | SectionKind::CuIndex | SectionKind::TuIndex => false,
        _ => true,
    }
}

/// Whether units share a section: whether they have contributions to it, and don't stand in it.
pub(crate) fn is_shared(kind: SectionKind) -> bool
    ensures { result ≡ formats.is_shared kind }
{
    is_copied(kind) || kind.is(SectionKind::StrOffsets)
}

fn has_part(parts: &[Part<'_>], kind: SectionKind) -> bool
    ensures { result ≡ spec.has_part kind (map view.part parts.now) }
{
    for part in parts {
        if part.kind.is(kind) {
            return true;
        }
    }
    false
}

/// String offsets that name their strings in the table: those of a package range by range. An `Err`
/// may leave strings behind those before.
#[tactic(auto, unfolding(crate::specs::InputStrings::rewritten))]
fn rewritten_section(
    alloc: Global,
    source: &Source<'_>,
    named: &[u8],
    bytes: &[u8],
    strings: &mut PackageStringTable,
    repeats: &mut Repeats,
) -> Result<Vec<u8>, Error>
    requires named { named.now ≡ first Str (view.source source.now).object.sections }
    requires known { AreKnown named.now strings.old repeats.old }
    ensures meaning { Gives (λ written. (written.items, strings.new)) result
        (input_strings.rewritten (view.source source.now) bytes.now strings.old) }
    ensures kept { take (length strings.old) strings.new ≡ strings.old }
    ensures known { AreKnown named.now strings.new repeats.new }
{
    let section = StringOffsets {
        strings: named,
        offsets: bytes,
        order: source.object.order,
        encoding: source.encoding,
    };
    if source.indexes.is_package() {
        repeats.clear();
        let compilations = source.indexes.compilations.as_ref();
        let types = source.indexes.types.as_ref();
        remap_packaged_offsets(alloc, strings, compilations, types, &section)
    } else {
        strings.remap_repeating(repeats, &section, bytes.len() as u64)
    }
}

/// Adds what a section adds: `RepeatedSection`, `SectionOutsideFormat`, `MissingRequiredSection`,
/// and the errors of string offsets. An `Err` may leave strings behind those before.
#[tactic(auto, unfolding(crate::specs::Parts::with_part, crate::specs::Parts::with_offsets))]
fn add_part<'a>(
    alloc: Global,
    gathering: &mut Gathering<'a>,
    source: &Source<'a>,
    named: &[u8],
    section: UsedSection<'a>,
    strings: &mut PackageStringTable,
) -> Result<(), Error>
    requires named { named.now ≡ first Str (view.source source.now).object.sections }
    requires known { AreKnown named.now strings.old gathering.old.repeats }
    ensures meaning { Gives (λ _. (map view.part gathering.new.parts.items, strings.new)) result
        (spec.with_part (view.source source.now)
        (map view.part gathering.old.parts.items, strings.old) (view.used section.entry)) }
    ensures kept { take (length strings.old) strings.new ≡ strings.old }
    ensures known { AreKnown named.now strings.new gathering.new.repeats }
{
    // A package has one section of each kind, an object of DWARF 5 one of string offsets.
    let is_offsets = section.kind.is(SectionKind::StrOffsets);
    let stands_once = source.indexes.is_package()
        | source.encoding.is_std_dwarf_package_format() & is_offsets;
    if stands_once && has_part(&gathering.parts, section.kind) {
        return Err(Error::RepeatedSection(section.kind.name()));
    }
    if !is_in_format(source.encoding, section.kind) {
        return Err(Error::SectionOutsideFormat(section.kind.name()));
    }
    if is_offsets {
        if !source.object.has_strings {
            return Err(Error::MissingRequiredSection(SectionKind::Str.name()));
        }
        let repeats = &mut gathering.repeats;
        let written = rewritten_section(alloc, source, named, section.bytes, strings, repeats)?;
        gathering.parts.push(Part {
            kind: SectionKind::StrOffsets,
            bytes: PartBytes::Rewritten(written),
        })?;
        return Ok(());
    }
    if is_copied(section.kind) {
        gathering.parts.push(Part {
            kind: section.kind,
            bytes: PartBytes::Copied(section.bytes),
        })?;
    }
    Ok(())
}

/// What an input adds to sections beside its units, in file order, its string offsets rewritten
/// over the strings of the package. Errors: the first error of its sections in file order:
/// `RepeatedSection`, `SectionOutsideFormat`, `MissingRequiredSection`, and what rewriting string
/// offsets answers; `Memory`. An `Err` may leave strings behind those before.
#[tactic(auto, unfolding(crate::specs::Parts::with_each_part))]
pub fn parts_of<'a>(
    alloc: Global,
    source: &Source<'a>,
    strings: &mut PackageStringTable,
) -> Result<Vec<Part<'a>>, Error>
    ensures meaning { Gives (λ parts. (map view.part parts.items, strings.new)) result
        (spec.parts_of (view.source source.now) strings.old) }
    ensures kept { take (length strings.old) strings.new ≡ strings.old }
{
    // Looked for once: an input may have many sections of string offsets.
    let named = source.object.first(SectionKind::Str);
    let mut gathering = Gathering {
        parts: Vec::new(alloc),
        repeats: Repeats::new(alloc),
    };
    for section in &source.object.sections {
        add_part(alloc, &mut gathering, source, named, *section, strings)?;
    }
    let Gathering { parts, .. } = gathering;
    Ok(parts)
}

/// Adds a part to the contents of a package. It refuses for memory alone.
fn put_part(file: &mut WritableObject, part: Part<'_>) -> Result<(), Error>
    ensures contents { OnOk result (file.new ≡ record file.old {
      contents = with_bytes part.entry.kind (view.part part.entry).1 file.old.contents;
    }) }
    ensures refused { IfErr result (λ e. e ≡ Error.Memory) }
    ensures grown { (before : Object) → IsGrown before file.old → IsGrown before file.new }
{
    let Part { kind, bytes } = part;
    match bytes {
        PartBytes::Copied(bytes) => file.append(kind, bytes)?,
        PartBytes::Rewritten(bytes) => file.append_moved(kind, bytes)?,
    };
    Ok(())
}

/// Adds the parts to the contents of a package, in order. Errors: `Memory` alone, which may leave
/// bytes behind those before.
#[tactic(auto, using(std::proofs::lemmas::List::nil_from_length), unfolding(crate::specs::Parts::with_parts))]
pub fn put_parts(file: &mut WritableObject, parts: Vec<Part<'_>>) -> Result<(), Error>
    ensures contents { OnOk result (file.new ≡ record file.old {
      contents = with_parts (map view.part parts.entry.items) file.old.contents;
    }) }
    ensures refused { IfErr result (λ e. e ≡ Error.Memory) }
    ensures grown { (before : Object) → IsGrown before file.old → IsGrown before file.new }
{
    for part in parts {
        put_part(file, part)?;
    }
    Ok(())
}
