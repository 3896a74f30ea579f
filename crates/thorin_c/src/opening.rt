//! Where the sections of a package lie among its bytes.

ghost use Rattle.std.specs.Prelude.{Err, find, IfErr, IfOk, IfSome, pos, slice_get, Some, ◌≡◌};
ghost use Rattle.dwp_base.specs.Reading.{Answers};
ghost use Rattle.dwp_elf_read.specs.View.{bytes_of, elf, file_bytes, section};
ghost use Rattle.dwp_index.specs.Contents.{content_among, is_of_kind, used_bytes};
ghost use Rattle.dwp_index.specs.{Firsts.first_in, Firsts.found_in, Package.package_of};
ghost use Rattle.thorin_c.specs.Opening.{bytes_at, IsPlaceIn, LieIn, opened, order_of, package_in};
ghost use Rattle.thorin_c.specs.Finding.{as_status, Fills};

use crate::opened::OpenPackage;
use crate::status::{DONE, status_of};
use crate::types::{ThorinPackage, ThorinRange};
use dwp_base::{ByKind, Endianness, SectionKind};
use dwp_elf_read::{ElfFile, ReadError, Section};
use dwp_index::{PackageError, first_sections};

/// The place of a section that isn't there.
const NOWHERE: ThorinRange = ThorinRange { offset: 0, size: 0 };

/// Opens a package: answers 0, and writes where its sections lie. The calls that take `places`
/// then read nothing but what they look up. Or 3 or 4 where it can't be read, and `places` is left
/// as it is.
#[unsafe(no_mangle)]
pub extern "C" fn thorin_open(bytes: &[u8], places: &mut ThorinPackage) -> i32
    ensures filled { Fills (λ found. package_in found bytes.now)
        (as_status (opened (package_of bytes.now))) places.old places.new result }
    ensures inside { result ≡ pos 0 → LieIn bytes.now places.new }
{
    let found = match placed(bytes) {
        Ok(found) => found,
        Err(error) => return status_of(error),
    };
    match OpenPackage::at(&found, bytes) {
        Ok(_) => {
            *places = found;
            DONE
        }
        Err(error) => status_of(error),
    }
}

/// The places of a package's sections, before its indexes are read.
#[tactic(auto, unfolding(dwp_index::specs::Package::package_of))]
pub(crate) fn placed(bytes: &[u8]) -> Result<ThorinPackage, PackageError>
    ensures same { IfOk result (λ places. package_of bytes.now ≡ package_in places bytes.now) }
    ensures fails { IfErr result (λ error. package_of bytes.now ≡ Err error) }
    ensures inside { IfOk result (LieIn bytes.now) }
{
    let file = match ElfFile::parse(bytes) {
        Ok(file) => file,
        Err(e) => return Err(PackageError::Elf(e)),
    };
    let firsts = first_sections(&file);
    let mut sections = [NOWHERE; 13];
    for kind in &SectionKind::ALL {
        match place(&file, &firsts, *kind) {
            Ok(found) => sections[kind.rank() as usize] = found,
            Err(e) => return Err(PackageError::Elf(e)),
        }
    }
    let big_endian = number_of(file.endianness());
    Ok(ThorinPackage {
        sections,
        big_endian,
    })
}

fn number_of(order: Endianness) -> u64
    ensures { order_of result ≡ order }
{
    match order {
        Endianness::Little => 0,
        Endianness::Big => 1,
    }
}

/// The place of the section of a kind that was met first; of no bytes where there is none.
fn place(
    file: &ElfFile<'_>,
    firsts: &ByKind<Option<(usize, Section<'_>)>>,
    kind: SectionKind,
) -> Result<ThorinRange, ReadError>
    requires first { first_in firsts.now kind ≡ find (is_of_kind kind) (elf file.now).sections }
    requires there { IfSome (found_in firsts.now kind) (λ found.
        slice_get (elf file.now).sections found.0 ≡ Some (section found.1)) }
    ensures content { Answers (bytes_at (bytes_of file.now)) result
        (content_among (elf file.now).sections kind) }
    ensures inside { IfOk result (IsPlaceIn (bytes_of file.now)) }
{
    let Some((number, _)) = firsts.get(kind) else {
        return Ok(NOWHERE);
    };
    match file.section(number) {
        None => Ok(NOWHERE),
        Some(used) => used_place(&used, kind),
    }
}

/// The place of a section that is used.
#[tactic(auto, unfolding(dwp_index::specs::Contents::used_bytes))]
fn used_place(used: &Section<'_>, kind: SectionKind) -> Result<ThorinRange, ReadError>
    ensures content { Answers (bytes_at (file_bytes used.now)) result
        (used_bytes kind (section used.now)) }
    ensures inside { IfOk result (IsPlaceIn (file_bytes used.now)) }
{
    if used.is_compressed() || used.has_older_name(kind) {
        return Err(ReadError::Compressed);
    }
    let (offset, size) = used.file_range().ok_or(ReadError::SectionRange)?;
    Ok(ThorinRange { offset, size })
}
