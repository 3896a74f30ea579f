//! From a file with compressed sections to one with plain ones.

ghost use Rattle.std.specs.Prelude.{Err, IfErr, IfOk, IsTrue, Ok, option_map, ◌≡◌, ◌≢◌};
ghost use Rattle.std.specs.Prelude.{length as length_of_list};
ghost use Rattle.dwp_decompress.specs.declared.error.DecompressError.TheVariants.{Unrepresentable};
ghost use Rattle.dwp_decompress.specs.declared.error.DecompressError.TheVariants.{Memory};
ghost use Rattle.dwp_elf_read.specs.{Elf.elf_of, View.elf};
ghost use Rattle.dwp_decompress.specs.{Agreement.expected_file, Compressed.HasCompressed};
ghost use Rattle.dwp_decompress.specs.{Answers.GivesFile, Headers.told_sizes};
ghost use Rattle.dwp_decompress.specs.Result.{decompressed_of, plain_file, plain_length_of};
ghost use Rattle.dwp_decompress.specs.Sizes.{length_of, sum_tells_more, tells_too_much};

use crate::agree::Expected;
use crate::asked::{Asked, has_compressed};
use crate::error::DecompressError;
use crate::file::Change;
use crate::sizes::{added_names, length, names_number};
use crate::stream::contents;
use dwp_elf_read::ElfFile;
use std::alloc::Global;

/// The file with these contents. It is read again, and refused where it means anything else.
fn written(
    alloc: Global,
    length: u64,
    bytes: &[u8],
    file: &ElfFile<'_>,
    expected: &Expected<'_>,
) -> Result<Vec<u8>, DecompressError>
    ensures meant { IfOk result (λ out. elf_of out.items
        ≡ Ok (expected_file expected.now (elf file.now))) }
    ensures long { IfOk result (λ out. length_of_list out.items ≡ length) }
    ensures refused { IfErr result (λ e. e ≢ Memory → e ≡ Unrepresentable) }
{
    let mut out = Vec::with_capacity(alloc, length as usize)?;
    let change = Change {
        bytes,
        file: *file,
        expected: *expected,
    };
    change.write(&mut out)?;
    match ElfFile::parse(&out) {
        Ok(new) if out.len() as u64 == length && expected.agrees(file, &new) => Ok(out),
        _ => Err(DecompressError::Unrepresentable),
    }
}

/// The file of compressed sections with plain ones.
#[tactic(auto, unfolding(crate::specs::Result::plain_file))]
fn with_plain(
    alloc: Global,
    asked: Asked,
    bytes: &[u8],
    file: &ElfFile<'_>,
) -> Result<Vec<u8>, DecompressError>
    ensures meant { GivesFile (λ out. elf_of out.items) result
        (plain_file asked bytes.now (elf file.now)) }
    ensures long { IfOk result (λ out. length_of asked bytes.now (elf file.now)
        ≡ Ok (length_of_list out.items)) }
    ensures limit { IsTrue (sum_tells_more asked bytes.now (elf file.now)
        (told_sizes asked (elf file.now).class (elf file.now).order (elf file.now).sections))
        → result ≡ Err Unrepresentable }
{
    let length = length(asked, bytes, file)?;
    let contents = contents(alloc, asked, file.class(), file.endianness(), file)?;
    let added = added_names(alloc, asked, file)?;
    let names = names_number(bytes, file).ok_or(DecompressError::Unrepresentable)?;
    let expected = Expected {
        names,
        added: &added,
        contents: &contents,
    };
    written(alloc, length, bytes, file, &expected)
}

/// The file with plain sections in place of the compressed ones that are asked for; `None` where it
/// has none. Others stay as they are.
///
/// A section is compressed if its flags have `SHF_COMPRESSED`, or its name begins with `.zdebug_`.
/// It gets its plain content, the name `.debug_X` for `.zdebug_X`, and loses the flag. All else
/// stays as the ELF reader tells it, but that the table of names grows by the new names. The file
/// has as many bytes as `plain_length` says. Errors: `Read` where the file can't be read, or a
/// compressed section lies outside of it; then, for the first section that has an error, `Header`,
/// `UnknownType`, or `Zlib` or `Zstd` where its stream cannot write as many bytes as are told; then
/// `Zlib` or `Zstd` for the first other stream that is damaged; `Unrepresentable` where the
/// result's numbers don't fit the class, or the table of names is itself compressed, where all
/// sections and their names have more than 16 times the bytes of the file, or where more is told
/// than zlib could write (`plain_length`); and `Memory`. The result is read again and compared
/// before it is given: where it were to mean anything else, the answer would be `Unrepresentable`
/// too.
#[tactic(auto, unfolding(crate::specs::Result::decompressed_of, crate::specs::Result::plain_length_of), using(crate::proofs::Sections::nothing_more))]
pub fn decompressed(
    alloc: Global,
    bytes: &[u8],
    asked: Asked,
) -> Result<Option<Vec<u8>>, DecompressError>
    ensures meant { GivesFile (option_map (λ out. elf_of out.items)) result
        (decompressed_of asked bytes.now) }
    ensures long { IfOk result (λ plain. plain_length_of asked bytes.now
        ≡ Ok (option_map (λ out. length_of_list out.items) plain)) }
    ensures limit { IsTrue (tells_too_much asked bytes.now (elf_of bytes.now))
        → result ≡ Err Unrepresentable }
    ensures compressed { result ≡ Err Unrepresentable → HasCompressed asked (elf_of bytes.now) }
{
    let file = ElfFile::parse(bytes)?;
    if has_compressed(asked, &file) {
        let out = with_plain(alloc, asked, bytes, &file)?;
        return Ok(Some(out));
    }
    Ok(None)
}
