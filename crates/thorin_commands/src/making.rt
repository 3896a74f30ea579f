//! The object of a package, made of the inputs: these are taken in order. One that is accepted is
//! noted, and told where that is asked for; of one that is refused it is told why.

ghost use Rattle.dwp_elf_read.specs.declared.error.WriteError.TheVariants as writer;
ghost use Rattle.std.specs.Prelude.{Err, IfErr, IfOk, map, Ok, OnOk, string_bytes, ◌-◌, ◌≡◌};
ghost use Rattle.thorin_commands.specs.Cause.{IsCauseOf, IsNotTaken, IsUnfinished, IsUntaken};
ghost use Rattle.thorin_commands.specs.Cause.{Refuses, StopsAt};
ghost use Rattle.dwp_elf.specs.{FileText.file_text, Numbers.Fits};
ghost use Rattle.thorin_errors.specs.declared.error.Error.TheVariants.{ObjectWrite};
ghost use Rattle.thorin_join.specs.Builder.{differing_in, finish_test, IsFinishedState};
ghost use Rattle.thorin_join.specs.Join.{IsPackageOf, IsPackageOnceWritten};
ghost use Rattle.thorin_join.specs.{Meaning.Members, Represents.units_in};
ghost use Rattle.thorin_commands.specs.{declared.packing.NoPackage.TheVariants.Empty, Made.IsMade};
ghost use Rattle.thorin_commands.specs.{Made.FillsTelling, Opened.TookAll, Opened.unit_count};
ghost use Rattle.thorin_commands.specs.Reading.{declined_by, manner_in, taken_by};
ghost use Rattle.thorin_commands.specs.Warned.{path_of, TellsAdded, TellsUnsplitRun};
ghost use Rattle.thorin_output.specs.Warnings.{IsPrinted};

use crate::archives::take_opened;
use crate::missing::leave_out;
use crate::notes::{Notes, Origin, lines_of_differing, now_in, place_of_refused, unit_count};
use crate::packing::NoPackage;
use crate::reading::InputFiles;
use crate::telling::{
    ReportOptions, lack_of, tell_added, tell_refused, tell_unfinished, warn_unsplit,
};
use bumpalo::Bump;
use dwp_bytes::RelocationEntry;
use dwp_elf::WritableObject;
use dwp_elf::laws::written_contents_are_read_back;
use dwp_table::DebugTypeSignature;
use std::alloc::{AllocError, Global};
use std::path::AsPath;
use thorin::laws::runs_go_on;
use thorin::{BytesSession, DwarfPackage, Input, NotTaken, take_input};
use thorin_errors::Error;
use thorin_inputs::Growth;
use thorin_output::FileSystem;
use thorin_print::LineOutput;
use thorin_sessions::Session;

/// The object to be written for these inputs, the type units that differ, and their lines.
pub(crate) fn packed_inputs<F: FileSystem, E: LineOutput>(
    inputs: &InputFiles<'_, F>,
    list: &[Input<'_>],
    options: ReportOptions,
    err: &mut E,
) -> Result<(WritableObject, Vec<DebugTypeSignature>, String), NoPackage>
    ensures made { IfOk result (λ made. IsMade options.verbose options.warns options.partial
        options.names inputs.now.packing.now.opens_archives (manner_in inputs.now) (taken_by F.offer
        inputs.now) list.now (E.contents err.old) (E.contents err.new) made.0 made.1.items
        (string_bytes made.2)) }
    ensures tried { IfErr result (λ refusal. refusal ≡ Empty → IsPrinted (E.contents err.old)
        (E.contents err.new) (TellsUnsplitRun options.verbose options.warns options.partial
        inputs.now.packing.now.opens_archives (manner_in inputs.now) (taken_by F.offer inputs.now)
        list.now)) }
    ensures told { IfErr result (Refuses E.contents E.failed err.new (IsCauseOf options.partial
        inputs.now.packing.now.opens_archives (manner_in inputs.now) (taken_by F.offer inputs.now)
        (declined_by F.offer inputs.now) list.now)) }
{
    runs_go_on(inputs);
    let bump = Bump::new(options.alloc);
    let session = BytesSession::new(&bump);
    let mut builder = DwarfPackage::new(options.alloc, &session);
    match fill(inputs, &mut builder, list, options, err) {
        Ok(lines) => finished(options.alloc, &inputs.notes, builder, lines, err),
        Err(refusal) => {
            drop(builder);
            Err(refusal)
        }
    }
}

/// Takes these inputs in order, up to the first that is refused, warns of those without split
/// units, and leaves out what isn't there, where that is asked for. Answers the lines of type units
/// that differ.
#[tactic(auto, using(crate::proofs::Causes::stops_by))]
fn fill<'o, 's: 'o, Sess: Session<RelocationEntry>, F: FileSystem, E: LineOutput>(
    inputs: &InputFiles<'_, F>,
    builder: &mut DwarfPackage<'o, 's, Sess>,
    list: &[Input<'_>],
    options: ReportOptions,
    err: &mut E,
) -> Result<String, NoPackage>
    ensures fills { IfOk result (λ lines. FillsTelling options.verbose options.warns options.partial
        options.names inputs.now.packing.now.opens_archives (manner_in inputs.now) (taken_by F.offer
        inputs.now) list.now builder.old.state builder.new.state (E.contents err.old) (E.contents
        err.new) (string_bytes lines)) }
    ensures told { IfErr result (Refuses E.contents E.failed err.new (StopsAt
        inputs.now.packing.now.opens_archives (manner_in inputs.now) (taken_by F.offer inputs.now)
        (declined_by F.offer inputs.now) list.now builder.old.state)) }
{
    let mut room = Vec::new(options.alloc);
    // Of each input why it added no unit, if it added none.
    let mut lacks = Vec::new(options.alloc);
    for input in list {
        let before = unit_count(builder);
        take(inputs, builder, &mut room, *input, options, err)?;
        let added = unit_count(builder).saturating_sub(before);
        let lack = lack_of(inputs.files, *input, room.as_slice(), added);
        lacks.push(lack).map_err(|_| AllocError)?;
    }
    let lacks = lacks.as_slice();
    warn_unsplit(inputs, builder, list, lacks, options, err)?;
    let lines = lines_of_differing(&inputs.notes, builder, options)?;
    leave_out(&inputs.notes, builder, options, err)?;
    Ok(lines)
}

/// Takes an input, or the members of an archive that is to be opened, and tells what came of it.
fn take<'o, 's: 'o, Sess: Session<RelocationEntry>, F: FileSystem, E: LineOutput>(
    inputs: &InputFiles<'_, F>,
    builder: &mut DwarfPackage<'o, 's, Sess>,
    room: &mut Vec<u8>,
    input: Input<'_>,
    options: ReportOptions,
    err: &mut E,
) -> Result<(), NoPackage>
    ensures took { OnOk result (TookAll inputs.now.packing.now.opens_archives (manner_in inputs.now)
        (taken_by F.offer inputs.now) input.entry builder.old.state builder.new.state) }
    ensures line { OnOk result (IsPrinted (E.contents err.old) (E.contents err.new)
        (TellsAdded options.verbose (path_of input.entry)
        (unit_count builder.new.state - unit_count builder.old.state))) }
    ensures told { IfErr result (Refuses E.contents E.failed err.new (IsNotTaken
        inputs.now.packing.now.opens_archives (manner_in inputs.now) (taken_by F.offer inputs.now)
        (declined_by F.offer inputs.now) input.entry builder.old.state)) }
{
    match input {
        Input::Object(path) if inputs.packing.opens_archives => {
            take_opened(inputs, builder, room, path, options, err)
        }
        _ => {
            let before = unit_count(builder);
            inputs.begin(input);
            let outcome = take_input(builder, inputs, room, input);
            let attempt = Attempt {
                input,
                room: room.as_slice(),
                before,
            };
            settle(inputs, builder, attempt, outcome, options, err)
        }
    }
}

/// An input that was taken or refused.
#[derive(Clone, Copy)]
pub(crate) struct Attempt<'a> {
    pub(crate) input: Input<'a>,
    /// What was read last.
    pub(crate) room: &'a [u8],
    /// How many units the package had before.
    pub(crate) before: usize,
}

/// Keeps for notes an object that was taken, and tells of an input by its outcome: how many units
/// were added, where that is asked for, or why it was refused.
#[tactic(auto, using(crate::proofs::Causes::stops_by))]
pub(crate) fn settle<'o, 's: 'o, Sess: Session<RelocationEntry>, F: FileSystem, E: LineOutput>(
    inputs: &InputFiles<'_, F>,
    builder: &DwarfPackage<'o, 's, Sess>,
    attempt: Attempt<'_>,
    outcome: Result<(), NotTaken<Error, Growth>>,
    options: ReportOptions,
    err: &mut E,
) -> Result<(), NoPackage>
    ensures took { OnOk result (outcome ≡ Ok tt) }
    ensures line { OnOk result (IsPrinted (E.contents err.old) (E.contents err.new)
        (TellsAdded options.verbose (path_of attempt.entry.input)
        (unit_count builder.now.state - attempt.entry.before))) }
    ensures told { IfErr result (Refuses E.contents E.failed err.new
        (IsUntaken (λ why. outcome ≡ Err why))) }
{
    let notes = &inputs.notes;
    match outcome {
        Ok(()) => {
            let now = now_in(builder);
            // (those of executables are kept as they are read)
            if let Input::Object(path) = attempt.input {
                notes.keep_taken(Origin::Object(path.path_text()), now);
            }
            tell_added(inputs.files, attempt, now.units, options, err)?;
            Ok(())
        }
        Err(why) => {
            let before = place_of_refused(builder, &why);
            tell_refused(options.alloc, notes, attempt.input, &why, before, err)?;
            Err(NoPackage::Told)
        }
    }
}

/// The object of the package, which can be written, those signatures, and these lines. Where it
/// can't be finished, that is printed, unless no input began it.
#[tactic(auto, using(crate::proofs::Causes::stops_by))]
fn finished<'o, 's: 'o, Sess: Session<RelocationEntry>, E: LineOutput>(
    alloc: Global,
    notes: &Notes,
    builder: DwarfPackage<'o, 's, Sess>,
    lines: String,
    err: &mut E,
) -> Result<(WritableObject, Vec<DebugTypeSignature>, String), NoPackage>
    ensures made { IfOk result (λ made. (finish_test builder.entry.state ≡ Ok tt)
        × IsFinishedState builder.entry.state made.0
        × IsPackageOf (units_in builder.entry.state) (file_text made.0)
        × (map (λ s. s.0) made.1.items ≡ differing_in builder.entry.state)
        × (made.2 ≡ lines) × (err.new ≡ err.old)) }
    ensures empty { IfErr result (λ refusal. refusal ≡ Empty → err.new ≡ err.old) }
    ensures told { IfErr result (Refuses E.contents E.failed err.new
        (IsUnfinished builder.entry.state)) }
{
    let (finished, differing) = builder.finish_with_differing();
    let error = match finished {
        Ok(object) => match can_be_written(&object) {
            Ok(()) => return Ok((object, differing, lines)),
            Err(error) => error,
        },
        Err(error) => error,
    };
    if let Error::NoOutputObjectCreated = error {
        return Err(NoPackage::Empty);
    }
    tell_unfinished(alloc, notes, &error, err)?;
    Err(NoPackage::Told)
}

/// Tests whether the numbers of an object's file fit.
#[tactic(auto, using(crate::proofs::Readable::readable))]
fn can_be_written(object: &WritableObject) -> Result<(), Error>
    ensures whole { OnOk result ((units : Members) → IsPackageOnceWritten units object.now
        → IsPackageOf units (file_text object.now)) }
    ensures refused { IfErr result (λ e. (e ≡ ObjectWrite writer.NumberTooLarge)
        × ¬ Fits object.now) }
{
    written_contents_are_read_back();
    // By the contracts of these two no two sections are of one kind, and the machine has 16 bits.
    object.sections();
    object.machine();
    object.file_size()?;
    Ok(())
}
