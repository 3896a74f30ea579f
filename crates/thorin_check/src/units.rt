//! The units of a package, in `thorin check`: each by itself, and two whose ranges clash.

ghost use Rattle.std.specs.Prelude.{IfOk, None, Ok, OnOk, Some, string_bytes, if◌then◌else◌, ◌≡◌};
ghost use Rattle.std.specs.Prelude.{IfSome};
ghost use Rattle.thorin_check.specs.Overlaps.{begins_inside, overlap_text, same_range, tables_text};
ghost use Rattle.thorin_check.specs.Overlaps.{has_units, IsClash, overlap};
ghost use Rattle.dwp_index.specs.Package.{found};
ghost use Rattle.thorin_check.specs.{Apart.AreApartOr, Checking.TellsUnits, Texts.IsUnreadText};
ghost use Rattle.thorin_check.specs.{Telling.so_far, Telling.Tells, Texts.IsTextOf};
ghost use Rattle.thorin_check.specs.Faults.{is_bare, TellsFound, TellsUnit};
ghost use Rattle.thorin_check.specs.Gathered.{Gathered, GoesOn, IsGatheredIn, IsSeen};

use crate::abbreviations::Remembered;
use crate::checking::IndexedPackage;
use crate::faults::{Faults, some, tell};
use crate::overlaps::{Clash, Shares};
use crate::strings::{Ends, UnreadStrings, check_strings};
use dwp_base::{Contribution, SectionKind};
use dwp_index::{PackageError, PackageFile, PackagedUnit, UnitEntry};
use dwp_table::{Bucketable, DwarfObject};
use std::alloc::{AllocError, Global};
use std::io::Write;
use thorin_find::short_kind;
use thorin_print::Failure;

/// What is remembered from unit to unit.
#[derive(Drop)]
struct Seen<'a> {
    alloc: Global,
    /// What was read of abbreviations, and of identifiers.
    abbreviations: Remembered<'a>,
    /// The units whose strings are still to be checked.
    strings: UnreadStrings,
}

/// Checks each unit that a slot names, then the strings of each range of string offsets. That
/// ranges clash and nothing is told can't be; then this tells of want of memory.
pub(crate) fn check_units<O: Write>(
    indexed: IndexedPackage<'_, '_>,
    faults: &mut Faults,
    out: &mut O,
) -> Result<(), Failure>
    requires { AreApartOr indexed.overlaps.now.clash indexed.pack.now indexed.entries.now }
    ensures { Tells (TellsUnits indexed.entry.pack.now indexed.entry.entries.now)
        (so_far (O.contents out.old) faults.old) (so_far (O.contents out.new) faults.new) result }
{
    let alloc = *faults.waiting.allocator();
    let pack = indexed.pack;
    let overlaps = indexed.overlaps;
    let ends = Ends::of(pack);
    let size = pack.content(SectionKind::StrOffsets).len() as u64;
    let mut seen = Seen {
        alloc,
        abbreviations: Remembered::new(alloc, pack),
        strings: UnreadStrings {
            ends,
            left: size.saturating_mul(2),
            last: None,
            unread: Vec::new(alloc),
        },
    };
    let count = faults.count;
    for i in 0..indexed.entries.len() {
        let entry = indexed.entries[i];
        let text = text_of(pack, entry, overlaps.of(i), &mut seen);
        tell(entry.object, text, faults, out)?;
    }
    if overlaps.clash & (faults.count == count) {
        return Err(Failure::Memory);
    }
    check_strings(pack, ends, &mut seen.strings.unread, faults, out)
}

/// What is told of the unit that a slot names, if anything.
#[tactic(auto, unfolding(crate::specs::Faults::TellsUnit))]
fn text_of<'a>(
    pack: &PackageFile<'a>,
    entry: UnitEntry,
    shares: Shares,
    seen: &mut Seen<'a>,
) -> Result<Option<String>, AllocError>
    requires seen { IsSeen pack.now seen.old }
    ensures text { IsTextOf (TellsUnit pack.now entry) entry.object result }
    ensures on { OnOk result (GoesOn pack.now seen.old seen.new) }
    ensures gathered { IfOk result (λ text. text ≡ None → IsGatheredIn pack.now
        seen.new.strings.unread.items (found pack.now entry.object)) }
{
    match pack.find(entry.object) {
        Ok(Some(unit)) => text_of_found(pack, entry, &unit, shares, seen),
        Ok(None) => some(format!(in seen.alloc; "not found under its identifier")),
        Err(error) => some(unread_text(seen.alloc, error)),
    }
}

/// What is told of the unit that is found under the identifier of a slot, if anything: it is to be
/// that of the slot's row, which is to have abbreviations where the package has some; none of its
/// ranges is to clash with that of another, and its own identifier is to be that of the slot. Then
/// the unit is gathered for the check of its strings.
fn text_of_found<'a>(
    pack: &PackageFile<'a>,
    entry: UnitEntry,
    unit: &PackagedUnit<'a>,
    shares: Shares,
    seen: &mut Seen<'a>,
) -> Result<Option<String>, AllocError>
    requires seen { IsSeen pack.now seen.old }
    requires is_found { found pack.now entry.object ≡ Ok (Some unit.now) }
    ensures text { IsTextOf (TellsFound pack.now entry unit.now) entry.object result }
    ensures on { OnOk result (GoesOn pack.now seen.old seen.new) }
    ensures gathered { IfOk result (λ text. text ≡ None
        → Gathered pack.now seen.new.strings.unread.items unit.now) }
{
    let row = unit.row();
    if row != entry.row {
        return some(format!(in seen.alloc; "found in row {row}"));
    }
    if is_bare(pack, unit) {
        return some(format!(in seen.alloc; "its row has no abbreviations"));
    }
    if let Some(text) = text_of_clash(seen.alloc, pack, unit, shares.clash)? {
        return Ok(Some(text));
    }
    match seen
        .abbreviations
        .text_of(pack, entry.object, unit, shares.has_twin)?
    {
        Some(text) => Ok(Some(text)),
        None => {
            seen.strings.add(unit, entry.object)?;
            Ok(None)
        }
    }
}

/// Whether the row of a unit has no abbreviations, where its package has some.
fn is_bare(pack: &PackageFile<'_>, unit: &PackagedUnit<'_>) -> bool
    ensures { result ≡ is_bare pack.now unit.now }
{
    !pack.content(SectionKind::Abbrev).is_empty() && unit.range(SectionKind::Abbrev).is_none()
}

/// What is told where what the index says of a unit can't be read.
fn unread_text(alloc: Global, error: PackageError) -> Result<String, AllocError>
    ensures { IfOk result (λ text. IsUnreadText error (string_bytes text)) }
{
    match error {
        PackageError::Range(kind) => {
            let name = kind.name();
            format!(in alloc; "its range of {name} is outside the section")
        }
        _ => format!(in alloc; "{error}"),
    }
}

/// What is told of a unit whose range of a section clashes with that of another: these are given,
/// where that may be so.
fn text_of_clash(
    alloc: Global,
    pack: &PackageFile<'_>,
    unit: &PackagedUnit<'_>,
    given: Option<Clash>,
) -> Result<Option<String>, AllocError>
    ensures { IfOk result (λ text. IfSome text (λ text.
        IsClash pack.now unit.now (string_bytes text))) }
{
    let Some((kind, other)) = given else {
        return Ok(None);
    };
    let Ok(Some(second)) = pack.find(other) else {
        return Ok(None);
    };
    if overlap(unit.range(kind), second.range(kind)) {
        return some(clash_text(alloc, kind, other, false));
    }
    let tables = SectionKind::Abbrev;
    if has_units(kind)
        && unit.range(kind).is_some()
        && is_same(unit.range(kind), second.range(kind))
        && !is_same(unit.range(tables), second.range(tables))
    {
        return some(clash_text(alloc, kind, other, true));
    }
    Ok(None)
}

/// What is told of a unit whose range of a section overlaps that of another, or is the same.
#[tactic(auto, using(thorin_print::proofs::Hex::hex16_written))]
fn clash_text(
    alloc: Global,
    kind: SectionKind,
    other: DwarfObject,
    is_same: bool,
) -> Result<String, AllocError>
    ensures { IfOk result (λ text. string_bytes text
        ≡ (if is_same then tables_text kind other else overlap_text kind other)) }
{
    let name = kind.name();
    let other_kind = short_kind(other);
    let id = other.index();
    if !is_same {
        return format!(in alloc; "its range of {name} overlaps that of {other_kind} 0x{id:016x}");
    }
    format!(in alloc;
        "its range of {name} is that of {other_kind} 0x{id:016x}, with other abbreviations"
    )
}

/// Whether a section has the bytes of units.
pub(crate) fn has_units(kind: SectionKind) -> bool
    ensures { result ≡ has_units kind }
{
    matches!(kind, SectionKind::Info | SectionKind::Types)
}

/// Whether two ranges are the same, or both are absent.
pub(crate) fn is_same(a: Option<Contribution>, b: Option<Contribution>) -> bool
    ensures { result ≡ same_range a b }
{
    match (a, b) {
        (Some(a), Some(b)) => a.offset.0 == b.offset.0 && a.size == b.size,
        (None, None) => true,
        _ => false,
    }
}

/// Whether two ranges of a section overlap without being the same.
fn overlap(a: Option<Contribution>, b: Option<Contribution>) -> bool
    ensures { result ≡ overlap a b }
{
    match (a, b) {
        (Some(a), Some(b)) => {
            !is_same(Some(a), Some(b)) && (begins_inside(a, b) || begins_inside(b, a))
        }
        _ => false,
    }
}

/// Whether a range begins inside another.
fn begins_inside(a: Contribution, b: Contribution) -> bool
    ensures { result ≡ begins_inside a b }
{
    b.offset.0 <= a.offset.0 && a.offset.0 - b.offset.0 < b.size
}
