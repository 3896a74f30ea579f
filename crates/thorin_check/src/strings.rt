//! The strings of a package's units, in `thorin check`: which of them end.

ghost use Rattle.std.specs.Prelude.{Ok, OnOk, Some, true, ◌≡◌};
ghost use Rattle.std.specs.{List.All, Result.result_err};
ghost use Rattle.dwp_index.specs.Contents.{content};
ghost use Rattle.dwp_index.specs.Package.{found, Package, row_bytes};
ghost use Rattle.thorin_check.specs.{Faults.TellsString, Faults.TellsStringsOf, Texts.IsTextOf};
ghost use Rattle.thorin_check.specs.{Ends.AllEnd, Ends.HasEnds, Telling.so_far, Telling.Tells};
ghost use Rattle.thorin_find.specs.Finding.{string_of};
ghost use Rattle.thorin_check.specs.Strings.{is_wide, IsBehind, range_of};
ghost use Rattle.thorin_check.specs.Gathered.{Adds, Gathers, IsOfUnit, TellsListed};
ghost use Rattle.dwp_table.specs.declared.object.DwarfObject.{DwarfObject};

use crate::faults::{Faults, some, tell};
use dwp_base::{Endianness, SectionKind};
use dwp_bytes::{Format, ReadError, StringOffsets};
use dwp_index::{PackageFile, PackagedUnit};
use dwp_table::DwarfObject;
use memchr::memrchr;
use std::alloc::AllocError;
use std::io::Write;
use thorin_find::string_count;
use thorin_print::Failure;

/// The strings of a package, of which no more is known than where the last of them ends: so none is
/// read to its end for each offset that names it.
#[derive(Clone, Copy)]
pub(crate) struct Ends {
    order: Endianness,
    // How many bytes the strings have.
    size: u64,
    // The place behind their last zero byte; 0 where there is none.
    reach: u64,
}

impl Ends {
    /// Those of a package.
    #[tactic(auto, using(crate::proofs::Packages::reached, crate::proofs::Packages::unreached))]
    pub(crate) fn of(pack: &PackageFile<'_>) -> Ends
        ensures { HasEnds result pack.now.order (content pack.now.contents SectionKind.Str) }
    {
        let strings = pack.content(SectionKind::Str);
        Ends {
            order: pack.order(),
            size: strings.len() as u64,
            reach: match memrchr(0, strings) {
                Some(last) => last as u64 + 1,
                None => 0,
            },
        }
    }

    /// Why the string of a number of a unit can't be read, where that is so: what
    /// `PackagedUnit::string` answers, but no string is read.
    #[tactic(auto, unfolding(dwp_bytes::specs::StringOffsets::string_at, dwp_bytes::specs::StringOffsets::string_in))]
    pub(crate) fn error_of(self, unit: &PackagedUnit<'_>, i: u64) -> Option<ReadError>
        requires { HasEnds self unit.now.order (content unit.now.contents SectionKind.Str) }
        ensures { result ≡ result_err (string_of unit.now i) }
    {
        let offset = self.offsets_of(unit).entry(i)?;
        if offset < self.reach {
            None
        } else if self.size < offset {
            Some(ReadError::OffsetOutOfRange)
        } else {
            Some(ReadError::NoTerminator)
        }
    }

    /// Whether every string of a unit can be read: each begins before the place behind the last
    /// zero byte.
    pub(crate) fn all_end(self, unit: &PackagedUnit<'_>) -> bool
        ensures { result ≡ true
            → HasEnds self unit.now.order (content unit.now.contents SectionKind.Str)
            → AllEnd unit.now }
    {
        let offsets = self.offsets_of(unit);
        for i in 0..offsets.count() {
            if let Some(offset) = offsets.entry(i) {
                if self.reach <= offset {
                    return false;
                }
            }
        }
        true
    }

    /// The string offsets of a unit; no string is read by them.
    #[inline(always)]
    fn offsets_of<'a>(self, unit: &PackagedUnit<'a>) -> StringOffsets<'a>
        ensures order { result.order ≡ self.order }
        ensures encoding { result.encoding ≡ unit.now.encoding }
        ensures bytes { result.offsets.now
            ≡ row_bytes unit.now.contents unit.now.row SectionKind.StrOffsets }
    {
        StringOffsets {
            strings: &[],
            offsets: unit.section(SectionKind::StrOffsets),
            order: self.order,
            encoding: unit.encoding(),
        }
    }
}

/// The string offsets of a unit, and how they are read. Units that have the same ones have the same
/// strings.
#[derive(Clone, Copy, PartialEq)]
pub(crate) struct StringRange {
    /// Where they begin.
    offset: u64,
    /// How many bytes they have.
    size: u64,
    version: u16,
    format: Format,
}

impl StringRange {
    /// Those of a unit.
    fn of(unit: &PackagedUnit<'_>) -> Option<StringRange>
        ensures { result ≡ range_of unit.now }
    {
        let range = unit.range(SectionKind::StrOffsets)?;
        let encoding = unit.encoding();
        Some(StringRange {
            offset: range.offset.0,
            size: range.size,
            version: encoding.version,
            format: encoding.format,
        })
    }
}

/// Whether string offsets come behind those before, if there were some.
fn comes_behind(before: Option<StringRange>, range: StringRange) -> bool
    ensures { result ≡ true → IsBehind before range }
{
    let Some(last) = before else {
        return true;
    };
    if last.offset != range.offset {
        return last.offset < range.offset;
    }
    if last.size != range.size {
        return last.size < range.size;
    }
    if last.version != range.version {
        return last.version < range.version;
    }
    !is_wide(last.format) && is_wide(range.format)
}

/// Whether offsets of a format have 64 bits.
fn is_wide(format: Format) -> bool
    ensures { result ≡ is_wide format }
{
    matches!(format, Format::Dwarf64)
}

/// The units whose strings are still to be checked. Most units' are while the unit is at hand.
#[derive(Drop)]
pub(crate) struct UnreadStrings {
    /// Which strings of the package end.
    pub ends: Ends,
    /// How many bytes of string offsets may still be gone over so: units can have the same ones.
    pub left: u64,
    /// The string offsets of the unit before.
    pub last: Option<StringRange>,
    /// Those that aren't checked, or can't all be read.
    pub unread: Vec<(StringRange, DwarfObject)>,
}

impl UnreadStrings {
    /// Adds a unit, unless it has the string offsets of the one before, or all its strings can be
    /// read; whether that is so isn't told where it would take too long.
    pub(crate) fn add(
        &mut self,
        unit: &PackagedUnit<'_>,
        object: DwarfObject,
    ) -> Result<(), AllocError>
        ensures { (pack : Package) → Gathers pack self.old → found pack object ≡ Ok (Some unit.now)
            → OnOk result (Adds pack self.old self.new unit.now) }
    {
        let Some(range) = StringRange::of(unit) else {
            return Ok(());
        };
        if self.last == Some(range) {
            return Ok(());
        }
        if range.size <= self.left {
            self.left -= range.size;
            if self.ends.all_end(unit) {
                self.last = Some(range);
                return Ok(());
            }
        }
        self.unread.push((range, object))?;
        self.last = Some(range);
        Ok(())
    }
}

/// Checks the strings of a unit of each range: these units are sorted by their string offsets, and
/// one that has those of the one before is passed over. Where they weren't sorted, which can't be,
/// this tells of want of memory.
#[tactic(auto, using(crate::proofs::Told::exits, crate::proofs::Told::first_none))]
pub(crate) fn check_strings<O: Write>(
    pack: &PackageFile<'_>,
    ends: Ends,
    strings: &mut Vec<(StringRange, DwarfObject)>,
    faults: &mut Faults,
    out: &mut O,
) -> Result<(), Failure>
    requires ends { HasEnds ends pack.now.order (content pack.now.contents SectionKind.Str) }
    requires are { All (IsOfUnit pack.now) strings.old.items }
    ensures { Tells (TellsListed pack.now strings.old.items)
        (so_far (O.contents out.old) faults.old) (so_far (O.contents out.new) faults.new) result }
{
    strings.sort_by_key(|(r, _)| (r.offset, r.size, r.version, is_wide(r.format)))?;
    let listed = strings.as_slice();
    let mut before: Option<StringRange> = None;
    for i in 0..listed.len() {
        if before == Some(listed[i].0) {
            continue;
        }
        if !comes_behind(before, listed[i].0) {
            return Err(Failure::Memory);
        }
        before = Some(listed[i].0);
        check_strings_of(pack, ends, listed[i].1, faults, out)?;
    }
    Ok(())
}

/// Checks each string of a unit.
#[tactic(auto, using(crate::proofs::Told::exits))]
fn check_strings_of<O: Write>(
    pack: &PackageFile<'_>,
    ends: Ends,
    object: DwarfObject,
    faults: &mut Faults,
    out: &mut O,
) -> Result<(), Failure>
    requires { HasEnds ends pack.now.order (content pack.now.contents SectionKind.Str) }
    ensures { Tells (TellsStringsOf object (found pack.now object))
        (so_far (O.contents out.old) faults.old) (so_far (O.contents out.new) faults.new) result }
{
    let unit = match pack.find(object) {
        Ok(Some(unit)) => unit,
        Ok(None) => return Ok(()),
        Err(_) => return Ok(()),
    };
    for i in 0..string_count(&unit) {
        let text = string_text(ends, &unit, i, &faults.waiting);
        tell(object, text, faults, out)?;
    }
    Ok(())
}

/// What is told of a string of a unit, where it can't be read.
fn string_text(
    ends: Ends,
    unit: &PackagedUnit<'_>,
    i: u64,
    near: &String,
) -> Result<Option<String>, AllocError>
    requires { HasEnds ends unit.now.order (content unit.now.contents SectionKind.Str) }
    ensures { (object : DwarfObject) → IsTextOf (TellsString object i (string_of unit.now i)) object
        result }
{
    let Some(error) = ends.error_of(unit, i) else {
        return Ok(None);
    };
    let alloc = *near.allocator();
    let cause = format!(in alloc; "{error}")?;
    let cause = cause.as_str();
    some(format!(in alloc; "string {i} can't be read: {cause}"))
}
