//! What an input's bytes make of a package: the input is read as ELF, its byte order is tested, and
//! its units are added.

ghost use Rattle.thorin_join.specs.Builder as spec;
ghost use Rattle.std.specs.Prelude.{IfOk, Ok, OnErr, OnOk, ◌≡◌};
ghost use Rattle.dwp_elf_read.specs.View.{elf};
ghost use Rattle.thorin_errors.specs.Answers.{Gives};
ghost use Rattle.thorin_input.specs.Encodings.{are_alike, encoding_of, file_encoding, own_encoding};
ghost use Rattle.thorin_builder.specs.{Repeated.ExtendsBegun, StateView.begun_of};
ghost use Rattle.thorin_input.specs.Used.{input_file_of};
ghost use Rattle.thorin_input.specs.View as view;

use crate::in_progress::InProgressDwarfPackage;
use dwp_base::Endianness;
use dwp_dwarf::Encoding;
use dwp_elf_read::ElfFile;
use std::alloc::Global;
use thorin_errors::Error;
use thorin_input::{Indexes, InputObject, Source, Walked, opened};

/// An input with its encoding and its indexes, for a package of this byte order.
#[tactic(auto, unfolding(thorin_join::specs::Builder::source_for, thorin_join::specs::Builder::order_test))]
pub(crate) fn source_for<'a>(held: Endianness, object: InputObject<'a>) -> Result<Source<'a>, Error>
    ensures meaning { Gives view.source result (spec.source_for held (view.object object.entry)) }
    ensures object { IfOk result (λ source.
        (view.source source).object ≡ view.object object.entry) }
    ensures encoding { IfOk result (λ source.
        encoding_of (view.source source).object ≡ Ok source.encoding) }
{
    let encoding = object.encoding()?;
    if held != object.order {
        return Err(Error::MixedInputEncodings);
    }
    let indexes = Indexes::read(&object, encoding)?;
    Ok(Source {
        object,
        encoding,
        indexes,
    })
}

/// Adds the units of an input to the package, which it may begin. Gives whether each has its
/// encoding.
#[tactic(auto, unfolding(thorin_join::specs::Builder::with_source_or_new))]
fn add_source(
    alloc: Global,
    in_progress: &mut Option<InProgressDwarfPackage>,
    file: &ElfFile<'_>,
    source: &Source<'_>,
) -> Result<bool, Error>
    ensures alike { IfOk result (λ alike. alike ≡ are_alike (view.source source.now)) }
    ensures meaning { Gives (λ _. begun_of in_progress.new) result (spec.with_source_or_new
        (elf file.now) (view.source source.now) (begun_of in_progress.old)) }
    ensures err { OnErr result (begun_of in_progress.new ≡ begun_of in_progress.old) }
    ensures extends { OnOk result
        (ExtendsBegun (begun_of in_progress.old) (begun_of in_progress.new)) }
{
    match in_progress {
        Some(package) => package.add(source),
        None => {
            let mut package = InProgressDwarfPackage::begun_by(alloc, file);
            let added = package.add(source);
            if added.is_ok() {
                in_progress.insert(package);
            } else {
                drop(package);
            }
            added
        }
    }
}

/// Adds an input with units, and gives the one encoding of all of them, where there is one.
#[tactic(auto, unfolding(thorin_join::specs::Builder::with_units, thorin_input::specs::Encodings::file_encoding))]
fn add_input_with_units(
    alloc: Global,
    in_progress: &mut Option<InProgressDwarfPackage>,
    file: &ElfFile<'_>,
    object: InputObject<'_>,
) -> Result<Option<Encoding>, Error>
    requires { input_file_of (elf file.now) ≡ Ok (view.object object) }
    ensures own { IfOk result (λ own. file_encoding (elf file.now) ≡ Ok own) }
    ensures meaning { Gives (λ _. begun_of in_progress.new) result
        (spec.with_units (elf file.now) (begun_of in_progress.old)) }
    ensures err { OnErr result (begun_of in_progress.new ≡ begun_of in_progress.old) }
    ensures extends { OnOk result
        (ExtendsBegun (begun_of in_progress.old) (begun_of in_progress.new)) }
{
    let held = match in_progress {
        Some(package) => package.object.endianness(),
        None => object.order,
    };
    let source = source_for(held, object)?;
    let alike = add_source(alloc, in_progress, file, &source)?;
    Ok(source.object.one_encoding(source.encoding, alike))
}

/// Adds an input: its units that aren't there, with all that belongs to them; without an info
/// section it only begins the package. Gives the one encoding of all its units, where it is a plain
/// object and there is one. The first error from left to right: of the file's kind, the ELF file,
/// the used sections, the first unit, the byte order, the indexes, the kinds of sections and the
/// string offsets, the abbreviations, the units. An `Err` leaves the package as it was.
#[tactic(auto, using(crate::proofs::Inputs::begun_extends), unfolding(thorin_join::specs::Builder::with_input, thorin_join::specs::Builder::with_units, thorin_input::specs::Encodings::own_encoding))]
pub(crate) fn add_input(
    alloc: Global,
    in_progress: &mut Option<InProgressDwarfPackage>,
    bytes: &[u8],
) -> Result<Option<Encoding>, Error>
    ensures own { IfOk result (λ own. own_encoding bytes.now ≡ Ok own) }
    ensures meaning { Gives (λ _.
        begun_of in_progress.new) result (spec.with_input bytes.now (begun_of in_progress.old)) }
    ensures err { OnErr result (begun_of in_progress.new ≡ begun_of in_progress.old) }
    ensures extends { OnOk result
        (ExtendsBegun (begun_of in_progress.old) (begun_of in_progress.new)) }
{
    let file = opened(bytes)?;
    let Walked { with_units, input } = Walked::over(alloc, &file);
    if with_units {
        return add_input_with_units(alloc, in_progress, &file, input?);
    }
    drop(input);
    if in_progress.is_none() {
        in_progress.insert(InProgressDwarfPackage::begun_by(alloc, &file));
    }
    Ok(None)
}
