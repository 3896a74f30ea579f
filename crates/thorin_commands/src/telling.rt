//! What `pack` tells of its inputs: with `--verbose`, and where one is refused.

ghost use Rattle.std.specs.Prelude.{IfErr, IfOk, length, OnOk, string_bytes, ◌-◌, ◌≡◌, ◌⊎◌};
ghost use Rattle.thorin_commands.specs.Warned.{TellsAdded, TellsUnsplit, TellUnsplitBy, unit_line};
ghost use Rattle.thorin_errors.specs.Errors.{error_of};
ghost use Rattle.thorin_inputs.specs.declared.notes.Lack.TheVariants.{Types};
ghost use Rattle.thorin_output.specs.Warnings.{IsPrinted};
ghost use Rattle.thorin_print.specs.Answers.{FailsBy, Grows};
ghost use Rattle.thorin_commands.specs.Cause.{HasLine, refusal_text, Tells, told_text};
ghost use Rattle.thorin_commands.specs.{Opened.unit_count, Warned.path_of};

use crate::making::Attempt;
use crate::notes::{Notes, unit_count};
use crate::packing::path_of;
use crate::reading::InputFiles;
use dwp_bytes::RelocationEntry;
use std::alloc::{AllocError, Global};
use std::io::Write;
use std::path::AsPath;
use thorin::{DwarfPackage, Input, InputReader, NotTaken};
use thorin_errors::Error;
use thorin_inputs::{
    Growth, Lack, count_units, has_types_alone, note_absent, note_alone, note_before, note_reason,
    note_refused, note_twice_in, place_of, reason,
};
use thorin_output::FileSystem;
use thorin_print::{Failure, LineOutput, shown, tell_taken};
use thorin_sessions::Session;
use thorin_words::printed;

/// What helps where inputs have several encodings.
const ENCODINGS: &'static str = "note: compile all with one -gdwarf-N, or pack each kind apart";

/// What is told while inputs are taken, and where its texts are made.
#[derive(Clone, Copy)]
pub(crate) struct ReportOptions {
    pub(crate) alloc: Global,
    /// Whether a line tells of each input that was taken.
    pub(crate) verbose: bool,
    /// Whether inputs without split units are warned of, where the package has no units.
    pub(crate) warns: bool,
    /// Whether a unit of an executable that isn't there is told and left out.
    pub(crate) partial: bool,
    /// Whether each type unit that differs is told of with the inputs of it and of the one kept.
    pub(crate) names: bool,
}

/// Tells of an input that was taken how many of its units were added, where that is asked for, by
/// how many the package has now; of an object that is a regular file also how many it has.
#[tactic(auto, using(crate::proofs::Warned::not_verbose, crate::proofs::Warned::pathless, crate::proofs::Warned::added_told))]
pub(crate) fn tell_added<F: FileSystem, E: LineOutput>(
    files: &F,
    attempt: Attempt<'_>,
    units: usize,
    options: ReportOptions,
    err: &mut E,
) -> Result<(), Failure>
    ensures line { OnOk result (IsPrinted (E.contents err.old) (E.contents err.new)
        (TellsAdded options.verbose (path_of attempt.entry.input) (units - attempt.entry.before))) }
    ensures blamed { IfErr result (FailsBy (E.failed err.new)) }
{
    if !options.verbose {
        return Ok(());
    }
    let Some(path) = path_of(attempt.input) else {
        return Ok(());
    };
    let name = path.path_text();
    let all = match attempt.input {
        Input::Object(_) if files.is_regular(name) => count_units(attempt.room),
        _ => None,
    };
    let added = units.saturating_sub(attempt.before);
    tell_taken(options.alloc, name, added, all, err)
}

/// Why an input that was taken added no unit, if it added none, by the bytes that were read. Of
/// what is no regular file it isn't told that type units were passed over.
pub(crate) fn lack_of<F: FileSystem>(files: &F, input: Input<'_>, room: &[u8], added: usize) -> Lack
    ensures { result ≡ Types → added ≡ 0 }
{
    match input {
        Input::Object(path) if added == 0 => {
            if has_types_alone(room) && files.is_regular(path.path_text()) {
                Lack::Types
            } else {
                Lack::of(room, false)
            }
        }
        _ => Lack::Unknown,
    }
}

/// Warns of each object whose type units were passed over. Where the package has no units and
/// nothing is missing, of each other input too: none of them has split units. Where something is
/// missing, of objects alone: some executable has split units.
#[tactic(auto, using(crate::proofs::Warned::unsplit_unasked))]
pub(crate) fn warn_unsplit<
    'o,
    's: 'o,
    Sess: Session<RelocationEntry>,
    F: FileSystem,
    E: LineOutput,
>(
    inputs: &InputFiles<'_, F>,
    builder: &DwarfPackage<'o, 's, Sess>,
    list: &[Input<'_>],
    lacks: &[Lack],
    options: ReportOptions,
    err: &mut E,
) -> Result<(), Failure>
    requires { length lacks.now ≡ length list.now }
    ensures lines { OnOk result (IsPrinted (E.contents err.old) (E.contents err.new)
        (TellUnsplitBy options.warns (unit_count builder.now.state ≡ 0) list.now lacks.now)) }
    ensures blamed { IfErr result (FailsBy (E.failed err.new)) }
{
    if !options.warns {
        return Ok(());
    }
    let count = unit_count(builder);
    let is_one_split = count == 0 && builder.missing_targets().next().is_some();
    for i in 0..list.len() {
        let (input, lack) = (list[i], lacks[i]);
        warn_for(options.alloc, inputs, input, lack, count, is_one_split, err)?;
    }
    Ok(())
}

/// Warns of an input that has type units alone, and says why nothing of it is split; in a package
/// without units of any other too, but of executables only where none of them has split units.
#[tactic(auto, using(crate::proofs::Warned::unsplit_none))]
fn warn_for<F: FileSystem, E: LineOutput>(
    alloc: Global,
    inputs: &InputFiles<'_, F>,
    input: Input<'_>,
    lack: Lack,
    count: usize,
    is_one_split: bool,
    err: &mut E,
) -> Result<(), Failure>
    ensures line { OnOk result (IsPrinted (E.contents err.old) (E.contents err.new)
        (TellsUnsplit ((count ≡ 0) ⊎ (lack ≡ Types)) (path_of input.entry))) }
    ensures blamed { IfErr result (FailsBy (E.failed err.new)) }
{
    let Some(path) = path_of(input) else {
        return Ok(());
    };
    let is_executable = !matches!(input, Input::Object(_));
    match lack {
        Lack::Types => {}
        _ if count > 0 => return Ok(()),
        _ if is_one_split && is_executable => return Ok(()),
        _ => {}
    }
    let name = shown(alloc, path.path_text())?;
    let mut room = Vec::new(alloc);
    let lack = if !is_executable {
        lack
    } else if inputs.files.is_regular(path.path_text()) {
        // A regular file that was taken for an executable is read again for that.
        inputs.begin(input);
        match inputs.read_into(true, path, &mut room) {
            Ok(bytes) => Lack::of(bytes, true),
            Err(_) => Lack::Unknown,
        }
    } else {
        Lack::Unknown
    };
    let why = format!(in alloc; "{lack}")?;
    let line = format!(in alloc; "warning: {name}: no split units{why}\n")?;
    err.print_text(line.as_str())
}

/// The line of a unit: words, its identifier, words, and more.
#[tactic(auto, using(thorin_errors::proofs::Hex::hex8_written))]
pub(crate) fn unit_line(
    alloc: Global,
    before: &str,
    id: u64,
    after: &str,
    more: &str,
) -> Result<String, AllocError>
    ensures { IfOk result (λ line.
        string_bytes line ≡ unit_line before.now id after.now more.now) }
{
    format!(in alloc; "{before}{id:08x}{after}{more}\n")
}

/// Prints why an input was refused, and what that is about: `before` is where among the package's
/// units the one stands that the input has too, if that is the error.
pub(crate) fn tell_refused<E: LineOutput>(
    alloc: Global,
    notes: &Notes,
    input: Input<'_>,
    why: &NotTaken<Error, Growth>,
    before: Option<usize>,
    err: &mut E,
) -> Result<(), Failure>
    ensures told { OnOk result (Tells E.contents err.new (refusal_text why.now)) }
    ensures blamed { IfErr result (FailsBy (E.failed err.new)) }
{
    let object = notes.named.replace(None);
    let named = object.as_ref().map(|object| object.path.as_str());
    let place = path_of(input).and_then(|path| place_of(alloc, path.path_text(), named).ok());
    tell_why(alloc, notes, why, place.as_deref(), before, err)
}

/// Prints why an input or a member of one was refused, and a note on the place.
pub(crate) fn tell_why<E: LineOutput>(
    alloc: Global,
    notes: &Notes,
    why: &NotTaken<Error, Growth>,
    place: Option<&str>,
    before: Option<usize>,
    err: &mut E,
) -> Result<(), Failure>
    ensures told { OnOk result (Tells E.contents err.new (refusal_text why.now)) }
    ensures blamed { IfErr result (FailsBy (E.failed err.new)) }
{
    match why {
        NotTaken::Failed(error) => print_error(alloc, error, err)?,
        NotTaken::Declined(growth) => put_error(alloc, growth.error(), err)?,
    }
    let mut lines = Vec::new(alloc);
    if let Some(place) = place {
        note_why(alloc, notes, why, place, before, &mut lines);
    }
    put_notes(lines.as_slice(), err);
    Ok(())
}

/// Prints notes that were put together, as far as they can be.
pub(crate) fn put_notes<E: LineOutput>(notes: &[u8], err: &mut E)
    ensures { Grows (E.contents err.old) (E.contents err.new) }
{
    if let Ok(text) = str::from_utf8(notes) {
        let _ = err.print_text(text);
    }
}

/// Prints the note on what was refused, an input, an object that it names or a member of it:
/// `before` is where among the package's units the one stands that it has too.
fn note_why(
    alloc: Global,
    notes: &Notes,
    why: &NotTaken<Error, Growth>,
    place: &str,
    before: Option<usize>,
    lines: &mut Vec<u8>,
) {
    match why {
        NotTaken::Declined(growth) => note_reason(place, growth.note(), lines),
        NotTaken::Failed(Error::ReadInput(cause)) => match reason(alloc, cause) {
            Ok(reason) => note_reason(place, reason.as_str(), lines),
            Err(_) => note_alone(place, lines),
        },
        NotTaken::Failed(Error::MixedInputEncodings) => note_encodings(notes, Some(place), lines),
        NotTaken::Failed(Error::DuplicateUnit(unit)) => match before {
            Some(before) => {
                let mut first = String::new(alloc);
                match notes.put_origin("", before, &mut first) {
                    Ok(()) if !first.is_empty() => {
                        note_before(*unit, place, first.as_str(), lines);
                    }
                    _ => note_alone(place, lines),
                }
            }
            None => note_twice_in(*unit, place, lines),
        },
        NotTaken::Failed(error) => note_refused(place, error, notes.compression.get(), lines),
    }
}

/// Prints a note for each encoding of the inputs; of a place alone where there are not several.
fn note_encodings<E: Write>(notes: &Notes, place: Option<&str>, err: &mut E) {
    match (notes.encodings.notes(), place) {
        (Ok(Some(lines)), _) => {
            let _ = writeln!(err, "{lines}{ENCODINGS}");
        }
        (_, Some(place)) => note_alone(place, err),
        _ => {}
    }
}

/// Prints why the package can't be finished, and a note on the unit's object, or on encodings.
#[tactic(auto, using(crate::proofs::Lines::followed))]
pub(crate) fn tell_unfinished<E: LineOutput>(
    alloc: Global,
    notes: &Notes,
    error: &Error,
    err: &mut E,
) -> Result<(), Failure>
    ensures told { OnOk result (Tells E.contents err.new (told_text (error_of error.now))) }
    ensures blamed { IfErr result (FailsBy (E.failed err.new)) }
{
    print_error(alloc, error, err)?;
    let mut lines = Vec::new(alloc);
    match error {
        Error::MissingReferencedUnit(unit) => {
            let absent = notes.absent_units();
            if let Some(reason) = absent.reason(*unit) {
                note_absent(reason, absent.others(), &mut lines);
            }
        }
        Error::MixedInputEncodings => note_encodings(notes, None, &mut lines),
        _ => {}
    }
    put_notes(lines.as_slice(), err);
    Ok(())
}

/// Prints an error, without control characters in names out of a file.
#[tactic(auto, using(crate::proofs::Lines::told))]
pub(crate) fn print_error<E: LineOutput>(
    alloc: Global,
    error: &Error,
    err: &mut E,
) -> Result<(), Failure>
    ensures told { OnOk result (Tells E.contents err.new (told_text (error_of error.now))) }
    ensures blamed { IfErr result (FailsBy (E.failed err.new)) }
{
    let text = format!(in alloc; "{error}")?;
    let text = printed(alloc, text.as_str())?;
    put_error(alloc, text.as_str(), err)
}

/// Prints the text of an error.
#[tactic(auto, using(crate::proofs::Lines::printed))]
pub(crate) fn put_error<E: LineOutput>(
    alloc: Global,
    text: &str,
    err: &mut E,
) -> Result<(), Failure>
    ensures told { OnOk result (HasLine E.contents err.new text.now) }
    ensures blamed { IfErr result (FailsBy (E.failed err.new)) }
{
    let line = format!(in alloc; "error: {text}\n")?;
    err.print_text(line.as_str())
}
