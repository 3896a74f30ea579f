//! How many bytes a file has once its sections are plain, which names its table gets, and how many
//! bytes its compressed sections have before.

ghost use Rattle.dwp_elf_read.specs.View as view;
ghost use Rattle.std.specs.Prelude.{Err, false, length, nat_lt, Ok, slice_get, ℕ, ◌++◌, ◌+◌, ◌≡◌};
ghost use Rattle.std.specs.Prelude.{IfErr, IfOk, IfSome, IsTrue, OnOk};
ghost use Rattle.dwp_decompress.specs.Sizes.{length_of, length_with, overlaps, size_of, tells_more};
ghost use Rattle.dwp_decompress.specs.Sizes.{compressed_size, sum_tells_more, tells_too_much};
ghost use Rattle.dwp_elf_read.specs.{Elf.elf_of, View.elf};
ghost use Rattle.dwp_decompress.specs.{Compressed.HasCompressed, Result.plain_length_of};
ghost use Rattle.dwp_decompress.specs.{Answers.GivesFile, Headers.told_sizes, Sizes.size_in};
ghost use Rattle.dwp_decompress.specs.Names.{added_name_of, added_names, names_number};
ghost use Rattle.dwp_decompress.specs.declared.error.DecompressError.TheVariants.{Unrepresentable};

use crate::asked::{Asked, has_compressed, is_compressed, is_older};
use crate::error::DecompressError;
use crate::stream::{told_size, word_size_of};
use dwp_base::{Class, Endianness};
use dwp_elf_read::{ElfFile, Section};
use std::alloc::{AllocError, Global};

/// How many times as many bytes as their file its sections and their names may have together: each
/// is read, and compared with what is written.
const MOST_TIMES: u64 = 16;

/// How many bytes a byte of a file, or of its compressed sections, may bring: the most of zlib.
const MOST_WRITTEN: u64 = 1032;

/// The number of the section that has the names.
#[tactic(auto, unfolding(crate::specs::Names::names_number))]
pub fn names_number(bytes: &[u8], file: &ElfFile<'_>) -> Option<usize>
    ensures { IfSome result (λ names. names ≡ names_number bytes.now (elf file.now)) }
{
    let place = 38 + 3 * word_size_of(file.class());
    if bytes.len() < place + 2 {
        return None;
    }
    let stored = file.endianness().read_u16(bytes.split_at(place).1);
    if stored != 0xffff {
        return Some(usize::from(stored));
    }
    Some(file.section(0).map_or(0, |section| section.link() as usize))
}

/// Adds the plain name of a section, if that is asked for, compressed, and has an older name.
#[tactic(auto, unfolding(crate::specs::Names::added_name_of, crate::specs::Names::plain_name), using(crate::proofs::Sections::older_long))]
fn add_name_of(asked: Asked, section: &Section<'_>, added: &mut Vec<u8>) -> Result<(), AllocError>
    ensures { OnOk result (added.new.items
        ≡ added.old.items ++ added_name_of asked (view.section section.now)) }
{
    match section.name() {
        Ok(name) if is_older(name) && is_compressed(asked, section) => {
            added.extend_from_slice(b".debug_")?;
            added.extend_from_slice(name.as_bytes().split_at(8).1)?;
            added.extend_from_slice(&[0])
        }
        _ => Ok(()),
    }
}

/// The names that the table gets.
#[tactic(auto, using(crate::proofs::Sections::names_step, crate::proofs::Sections::names_end, dwp_base::proofs::Finds::slice_get_none))]
pub fn added_names(alloc: Global, asked: Asked, file: &ElfFile<'_>) -> Result<Vec<u8>, AllocError>
    ensures { IfOk result (λ added. added.items ≡ added_names asked (elf file.now).sections) }
{
    let mut added = Vec::new(alloc);
    for i in 0..file.section_count() {
        if let Some(section) = file.section(i) {
            add_name_of(asked, &section, &mut added)?;
        }
    }
    Ok(added)
}

/// Whether sections and their names have more bytes than these. A name that can't be read has as
/// many as the table of names.
fn reads_more(file: &ElfFile<'_>, table: u64, most: u64) -> bool {
    let mut read = 0u64;
    for section in file.sections() {
        let name = section.name().map_or(table, |name| name.len() as u64);
        let content = section.data().map_or(0, |content| content.len() as u64);
        read = read.saturating_add(name).saturating_add(content);
        if read > most {
            return true;
        }
    }
    false
}

/// How many bytes the plain contents of all sections are said to have together.
fn told_sizes(
    asked: Asked,
    class: Class,
    order: Endianness,
    file: &ElfFile<'_>,
) -> Result<u64, DecompressError>
    ensures sum { GivesFile (λ size. size) result
        (told_sizes asked class order (elf file.now).sections) }
    ensures error { (n : ℕ) → told_sizes asked class order (elf file.now).sections ≡ Ok n
        → IfErr result (λ e. e ≡ Unrepresentable) }
{
    let mut told = 0u64;
    for i in 0..file.section_count() {
        let section = file.section(i).ok_or(DecompressError::Unrepresentable)?;
        let size = told_size(asked, class, order, &section)?;
        told = told
            .checked_add(size)
            .ok_or(DecompressError::Unrepresentable)?;
    }
    Ok(told)
}

/// How many bytes the table of names gets for a section.
#[tactic(auto, unfolding(crate::specs::Names::added_name_of), using(crate::proofs::Sections::older_adds))]
fn added_size(asked: Asked, section: &Section<'_>) -> usize
    ensures { result ≡ length (added_name_of asked (view.section section.now)) }
{
    match section.name() {
        Ok(name) if is_older(name) && is_compressed(asked, section) => name.len(),
        _ => 0,
    }
}

/// How many it gets for all of them.
#[tactic(auto, using(crate::proofs::Sections::added_step, crate::proofs::Sections::added_end))]
fn added_sizes(asked: Asked, file: &ElfFile<'_>) -> Option<u64>
    ensures { IfSome result (λ size. size ≡ length (added_names asked (elf file.now).sections)) }
{
    let mut added = 0u64;
    for i in 0..file.section_count() {
        let section = file.section(i)?;
        added = added.checked_add(added_size(asked, &section) as u64)?;
    }
    Some(added)
}

/// The size of the section of a number; 0 where there is none.
pub fn size_of(file: &ElfFile<'_>, number: usize) -> u64
    ensures { result ≡ size_of (slice_get (elf file.now).sections number) }
{
    file.section(number).map_or(0, |section| section.size())
}

/// Whether the plain contents are said to have more bytes than zlib could write of as many bytes as
/// the file has, or its compressed sections.
#[tactic(auto, unfolding(crate::specs::Sizes::tells_more), using(crate::proofs::Sections::more_told, crate::proofs::Sections::few_told))]
fn tells_more(asked: Asked, bytes: &[u8], file: &ElfFile<'_>, told: u64) -> bool
    ensures { result ≡ tells_more asked bytes.now (elf file.now) told }
{
    told > (bytes.len() as u64).saturating_mul(MOST_WRITTEN)
        && !have_more(asked, file, (told - 1) / MOST_WRITTEN)
}

/// How many bytes the file has once there are so many plain ones.
#[tactic(auto, unfolding(crate::specs::Sizes::length_with))]
fn length_with(asked: Asked, bytes: &[u8], file: &ElfFile<'_>, told: u64) -> Option<u64>
    ensures size { IfSome result (λ size. size ≡ length_with asked bytes.now (elf file.now) told) }
    ensures limit { IfSome result (λ _. tells_more asked bytes.now (elf file.now) told ≡ false) }
{
    let table = size_of(file, names_number(bytes, file)?);
    let most = (bytes.len() as u64).saturating_mul(MOST_TIMES);
    if reads_more(file, table, most) || tells_more(asked, bytes, file, told) {
        return None;
    }
    let names = match added_sizes(asked, file)? {
        0 => 0,
        added => table.checked_add(added)?,
    };
    let end = (bytes.len() as u64)
        .checked_add(told)?
        .checked_add(names)?
        .checked_add(7)?
        / 8
        * 8;
    let header = 16 + 6 * word_size_of(file.class()) as u64;
    end.checked_add((file.section_count() as u64).checked_mul(header)?)
}

/// How many bytes a file has once its compressed sections are plain.
#[tactic(auto, unfolding(crate::specs::Sizes::length_of), using(crate::proofs::Sections::limit_error))]
pub(crate) fn length(asked: Asked, bytes: &[u8], file: &ElfFile<'_>) -> Result<u64, DecompressError>
    ensures size { GivesFile (λ size. size) result (length_of asked bytes.now (elf file.now)) }
    ensures limit { IsTrue (sum_tells_more asked bytes.now (elf file.now)
        (told_sizes asked (elf file.now).class (elf file.now).order (elf file.now).sections))
        → result ≡ Err Unrepresentable }
{
    let told = told_sizes(asked, file.class(), file.endianness(), file)?;
    length_with(asked, bytes, file, told).ok_or(DecompressError::Unrepresentable)
}

/// How many bytes `decompressed` gives, by what the headers say: no stream is read, and no memory
/// is taken. `None` where no section that is asked for is compressed. Errors: `Read`, `Header`,
/// `UnknownType`, `Zlib` or `Zstd` where a stream cannot write as many bytes as are told, and
/// `Unrepresentable`, as of `decompressed`: so where more than 1,032 bytes are told for each byte
/// of the file, or of its compressed sections if these have more. Streams of zstd could write 32
/// times as many.
#[tactic(auto, unfolding(crate::specs::Result::plain_length_of), using(crate::proofs::Sections::nothing_more))]
pub fn plain_length(bytes: &[u8], asked: Asked) -> Result<Option<u64>, DecompressError>
    ensures length { GivesFile (λ size. size) result (plain_length_of asked bytes.now) }
    ensures limit { IsTrue (tells_too_much asked bytes.now (elf_of bytes.now))
        → result ≡ Err Unrepresentable }
    ensures compressed { result ≡ Err Unrepresentable → HasCompressed asked (elf_of bytes.now) }
{
    let file = ElfFile::parse(bytes)?;
    if has_compressed(asked, &file) {
        let length = length(asked, bytes, &file)?;
        return Ok(Some(length));
    }
    Ok(None)
}

/// How many bytes a section has in the file, if it is asked for and compressed.
fn size_in(asked: Asked, section: &Section<'_>) -> u64
    ensures { result ≡ size_in asked (view.section section.now) }
{
    if is_compressed(asked, section) {
        return section.size();
    }
    0
}

/// Whether the compressed sections that are asked for have more bytes than these.
#[tactic(auto, using(crate::proofs::Sections::size_step, crate::proofs::Sections::size_end, dwp_base::proofs::Finds::slice_get_none))]
fn have_more(asked: Asked, file: &ElfFile<'_>, room: u64) -> bool
    ensures { result ≡ nat_lt room (compressed_size asked (elf file.now).sections) }
{
    let mut left = room;
    for i in 0..file.section_count() {
        if let Some(section) = file.section(i) {
            let size = size_in(asked, &section);
            if left < size {
                return true;
            }
            left -= size;
        }
    }
    false
}

/// Whether the compressed sections that are asked for have more bytes than their file: then some of
/// them overlap, which sections of a file may not (ELF gABI, "Sections"). Of a file for which this
/// is false the streams that are asked for write at most 1,032 times as many bytes as it has, or
/// aren't read (`plain_length`).
pub fn overlaps(bytes: &[u8], asked: Asked) -> bool
    ensures exact { result ≡ overlaps asked bytes.now (elf_of bytes.now) }
{
    match ElfFile::parse(bytes) {
        Ok(file) => have_more(asked, &file, bytes.len() as u64),
        Err(_) => false,
    }
}
