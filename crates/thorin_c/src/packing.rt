//! Packing objects and packages.

ghost use Rattle.std.specs.Prelude.{IfOk, map, take, true, if◌then◌else◌, ◌<◌, ◌≡◌, ◌≢◌, ◌≤◌, ◌⊎◌};
ghost use Rattle.std.specs.Prelude.{IfErr, length, OnOk, pos};
ghost use Rattle.thorin_c.specs.Packing.{IsFailure, IsPackage, RunsOutAt, TellsAlone, TellsOfError};
ghost use Rattle.thorin_c.specs.Packing.{Accepts, ArePackedAgain, IsPackingStatus, TellsOfPackage};
ghost use Rattle.thorin_c.specs.Packing.{RunsOutAfter, TellsOfInput, TellsOfMemory, TellsRefused};
ghost use Rattle.thorin_c.specs.Packing.{IsDifferingStatus, TellsOfDiffering, TellsUnfinished};
ghost use Rattle.thorin_c.specs.Packing.{Differ, Needs, Packs, Refuses, StopsAt};
ghost use Rattle.thorin_errors.specs.{declared.error.Error.TheVariants.Memory, Errors.error_of};
ghost use Rattle.thorin_join.specs.{Join.IsPackageOf, Represents.units_in};
ghost use Rattle.thorin.specs.Run.{Writes};
ghost use Rattle.thorin_c.specs.{Errors.Tells, Listing.written_over};

use crate::error::tell;
use crate::session::NoFiles;
use crate::status::{DONE, NO_MEMORY, REFUSED, TOO_SMALL, UNFINISHED};
use crate::types::{ThorinBytes, ThorinReport};
use dwp_table::DebugTypeSignature;
use std::alloc::Global;
use thorin::DwarfPackage;
use thorin::again::written_packages_are_taken_again;
use thorin_errors::Error;

/// A package's bytes, how many type units were passed over that differ from those kept, and whether
/// it is sure to be taken as an input again.
#[derive(Drop)]
struct FinishedPackage {
    file: Vec<u8>,
    differing: u64,
    packs_again: bool,
}

/// Why inputs weren't packed: the number of the one that was refused, or at which memory ran out,
/// and the error. Where the package can't be finished or written, it is how many inputs there are.
#[derive(Drop)]
struct RefusedInput {
    number: usize,
    error: Error,
}

/// Packs objects and packages in order, and answers 0: the package stands at the beginning of
/// `out`, its length in `report.size`, `report.differing` says how many type units were passed over
/// whose bytes differ from those kept, and `report.packs_again` is 1 where the package is sure to
/// be taken as an input again, as the clause `again` says. Else `out` is left as it is: 10 where it
/// is too small, and `report.size` is the length that is needed; 11 where an input is refused, the
/// first of them `report.input`; 12 where the package can't be finished or written; 13 where memory
/// ran out at the input `report.input`, or, at their number, while the package was finished and
/// written. Under 11 and 12 the error's number and text stand in `report`. The other fields of
/// `report` are left as they are.
#[unsafe(no_mangle)]
pub extern "C" fn thorin_pack(
    alloc: Global,
    inputs: &[ThorinBytes<'_>],
    out: &mut [u8],
    report: &mut ThorinReport,
) -> i32
    ensures packed { result ≡ pos 0 → Packs inputs.now report.new out.old out.new }
    ensures again { result ≡ pos 0 → report.new.packs_again ≡ 1
        → ArePackedAgain inputs.now (take report.new.size out.new) }
    ensures small { result ≡ pos 10 → Needs inputs.now report.new (length out.old) }
    ensures refused { result ≡ pos 11 → Refuses inputs.now report.new }
    ensures unfinished { result ≡ pos 12 → TellsUnfinished inputs.now report.new }
    ensures memory { result ≡ pos 13 → RunsOutAt inputs.now report.new.input
        ⊎ RunsOutAfter inputs.now report.new.input }
    ensures status { IsPackingStatus result }
    ensures unchanged { result ≢ pos 0 → out.new ≡ out.old }
    ensures alone { TellsAlone TellsOfPackage result report.old report.new }
{
    match package_of(alloc, inputs) {
        Ok(packed) => {
            let len = packed.file.len();
            report.size = len as u64;
            report.differing = packed.differing;
            report.packs_again = if packed.packs_again { 1 } else { 0 };
            if len > out.len() {
                return TOO_SMALL;
            }
            out[..len].copy_from_slice(packed.file.as_slice());
            DONE
        }
        Err(refusal) => refused(refusal, inputs, report),
    }
}

/// The signatures of the type units of inputs that are passed over and whose bytes differ from
/// those of the unit that is kept: 0, as many as there is room for in `types`, in the order of
/// passing over, and how many there are in `report.differing`. 11 and 13 as `thorin_pack`, and then
/// `types` is left as it is, as are the other fields of `report` always.
#[tactic(auto, using(crate::proofs::Lists::differs))]
#[unsafe(no_mangle)]
pub extern "C" fn thorin_differing_types(
    alloc: Global,
    inputs: &[ThorinBytes<'_>],
    types: &mut [u64],
    report: &mut ThorinReport,
) -> i32
    ensures done { result ≡ pos 0 → Differ inputs.now report.new types.old types.new }
    ensures refused { result ≡ pos 11 → Refuses inputs.now report.new }
    ensures memory { result ≡ pos 13 → RunsOutAt inputs.now report.new.input }
    ensures status { IsDifferingStatus result }
    ensures unchanged { result ≢ pos 0 → types.new ≡ types.old }
    ensures alone { TellsAlone TellsOfDiffering result report.old report.new }
{
    let session = NoFiles {};
    let mut builder = DwarfPackage::new(alloc, &session);
    match add_all(&mut builder, inputs) {
        Ok(()) => {
            let differing = builder.differing_types();
            report.differing = differing.len() as u64;
            write_signatures(differing, types);
            drop(builder);
            DONE
        }
        Err(refusal) => {
            drop(builder);
            refused(refusal, inputs, report)
        }
    }
}

// Tells why inputs weren't packed.
fn refused(refusal: RefusedInput, inputs: &[ThorinBytes<'_>], report: &mut ThorinReport) -> i32
    ensures told { result ≡ pos 11 → (refusal.number < length inputs.now)
        × TellsRefused refusal.number refusal.error report.new }
    ensures unfinished { result ≡ pos 12 → (length inputs.now ≤ refusal.number)
        × ((refusal.error ≢ Memory) × Tells (error_of refusal.error) report.new) }
    ensures memory { result ≡ pos 13 → (refusal.error ≡ Memory)
        × (report.new.input ≡ refusal.number) }
    ensures status { (result ≡ pos 11) ⊎ ((result ≡ pos 12) ⊎ (result ≡ pos 13)) }
    ensures input_alone { result ≡ pos 11 → TellsOfInput report.old report.new }
    ensures error_alone { result ≡ pos 12 → TellsOfError report.old report.new }
    ensures memory_alone { result ≡ pos 13 → TellsOfMemory report.old report.new }
{
    let RefusedInput { number, error } = refusal;
    if matches!(error, Error::Memory) {
        report.input = number as u64;
        return NO_MEMORY;
    }
    tell(error, report);
    if number >= inputs.len() {
        return UNFINISHED;
    }
    report.input = number as u64;
    REFUSED
}

// The package of inputs.
#[tactic(auto, using(crate::proofs::Lists::none_fails))]
fn package_of(alloc: Global, inputs: &[ThorinBytes<'_>]) -> Result<FinishedPackage, RefusedInput>
    ensures packed { IfOk result (λ packed. IsPackage inputs.now packed.differing
        (if packed.packs_again then 1 else 0) packed.file.items) }
    ensures again { IfOk result (λ packed. packed.packs_again ≡ true
        → ArePackedAgain inputs.now packed.file.items) }
    ensures refused { IfErr result (IsFailure inputs.now) }
{
    if inputs.is_empty() {
        return Err(RefusedInput {
            number: 0,
            error: Error::NoOutputObjectCreated,
        });
    }
    written_packages_are_taken_again();
    let session = NoFiles {};
    let mut builder = DwarfPackage::new(alloc, &session);
    if let Err(refusal) = add_all(&mut builder, inputs) {
        drop(builder);
        return Err(refusal);
    }
    let differing = builder.differing_types().len() as u64;
    let packs_again = builder.packs_again();
    match written(builder) {
        Ok(file) => Ok(FinishedPackage {
            file,
            differing,
            packs_again,
        }),
        Err(error) => Err(RefusedInput {
            number: inputs.len(),
            error,
        }),
    }
}

// Adds inputs in order, up to the first that isn't taken: its number and its error.
#[tactic(auto, unfolding(thorin::specs::Groups::taken_each))]
fn add_all<'o, 's: 'o>(
    builder: &mut DwarfPackage<'o, 's, NoFiles>,
    inputs: &[ThorinBytes<'_>],
) -> Result<(), RefusedInput>
    ensures accepted { OnOk result (Accepts inputs.now builder.old.state builder.new.state) }
    ensures refused { IfErr result (λ refusal.
        StopsAt inputs.now builder.old.state refusal.number refusal.error) }
{
    for (number, input) in inputs.iter().enumerate() {
        if let Err(error) = builder.add_object_bytes(input.bytes) {
            return Err(RefusedInput { number, error });
        }
    }
    Ok(())
}

// The file of the finished package.
fn written<'o, 's: 'o>(builder: DwarfPackage<'o, 's, NoFiles>) -> Result<Vec<u8>, Error>
    ensures writes { Writes (λ bytes. bytes.items) builder.entry.state result }
    ensures packaged { IfOk result (λ bytes.
        IsPackageOf (units_in builder.entry.state) bytes.items) }
{
    let file = builder.finish()?;
    Ok(file.write()?)
}

// Writes signatures, as many as there is room for.
fn write_signatures(signatures: &[DebugTypeSignature], types: &mut [u64])
    ensures { types.new ≡ written_over types.old (map (λ s. s.0) signatures.now) }
{
    for (i, signature) in signatures.iter().enumerate() {
        if i < types.len() {
            types[i] = signature.0;
        }
    }
}
