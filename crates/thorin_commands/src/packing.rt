//! `thorin pack`: what it is asked for, and the inputs and the package of that.

ghost use Rattle.std.specs.Prelude.{IfErr, IfOk, map, Ok, Some, string_bytes, true, ◌≡◌, ◌≤◌, ◌⊎◌};
ghost use Rattle.thorin_commands.specs.Packing.{AllApart, declines, IsNoInput, out_of, paths_in};
ghost use Rattle.thorin_commands.specs.Packing.{asked, asks, Fails, Packs, reads};
ghost use Rattle.thorin_commands.specs.Reading.{declined_by, taken_by};
ghost use Rattle.std.specs.{Path.path_bytes, Prelude.false, Prelude.IsTrue, Prelude.option_map};
ghost use Rattle.thorin_output.specs.Files.{Begins, Put};
ghost use Rattle.thorin_commands.specs.Cause.{IsCauseFor, Refuses, Told, Unfinished};
ghost use Rattle.thorin_commands.specs.{Failing.FailsPacking, Failing.IsInput, Failing.LeadTo};
ghost use Rattle.thorin_errors.specs.declared.error.Error.TheVariants.{NoOutputObjectCreated};
ghost use Rattle.thorin_commands.specs.{Made.IsMadeFor, Made.IsReady, Naming.IsNameless};
ghost use Rattle.thorin_commands.specs.declared.packing.NoPackage.TheVariants.{Command};
ghost use Rattle.thorin_print.specs.declared.output.Failure.TheVariants.{Memory};
ghost use Rattle.thorin_commands.specs.Warned.{names, others, PacksTelling, path_of, TellsTaken};

use crate::making::packed_inputs;
use crate::reading::InputFiles;
use crate::telling::{ReportOptions, print_error};
use dwp_elf::WritableObject;
use dwp_macros::KeptMacros;
use dwp_table::DebugTypeSignature;
use std::alloc::{AllocError, Global};
use std::io::Write;
use std::path::Path;
use thorin::{Input, NamelessUnits};
use thorin_errors::{Error, MissingReferencedObjectBehaviour};
use thorin_output::{FileSystem, Warned, Warnings, write_then_warn};
use thorin_print::{Failure, LineOutput};

/// What is to be packed, and where to.
#[derive(Drop)]
pub struct Packing<'m, 'a> {
    /// The package's file. Where none is named, it is that of the one executable with `.dwp`
    /// behind.
    pub output: Option<&'a str>,
    /// The objects and packages that are inputs.
    pub inputs: Option<&'m [&'a str]>,
    /// The executables whose objects are inputs, behind those.
    pub executables: Option<&'m [&'a str]>,
    /// What is done where an object that an executable names isn't there.
    pub missing: MissingReferencedObjectBehaviour,
    /// What becomes of a unit of an executable that names no object.
    pub nameless: NamelessUnits,
    /// Whether the package may take the place of an input.
    pub force: bool,
    /// Whether compressed sections of inputs are decompressed first.
    pub decompresses: bool,
    /// Words `FROM=TO`: the prefix FROM of a path that an executable names is replaced by TO.
    pub prefix_maps: Option<&'m [&'a str]>,
    /// Whether a unit of an executable that isn't there is told and left out.
    pub partial: bool,
    /// Whether an input may be an archive, whose members are taken.
    pub opens_archives: bool,
    /// Whether a line tells of each input that was taken.
    pub verbose: bool,
    /// Which warnings of type units that differ are printed.
    pub warnings: Warnings,
    /// Whether an input may have sections that overlap.
    pub allows_overlap: bool,
    /// Which of an object's sections of macros count.
    pub macros: KeptMacros,
    /// Whether an object is warned of that has several, and of which all count.
    pub warns_of_macros: bool,
    /// Whether the package is empty where nothing of the executables is split, and that is no
    /// error.
    pub lets_empty: bool,
}

impl Packing<'_, '_> {
    /// The name of the package's file: the one that is named, or that of the one executable with
    /// `.dwp` behind. Errors: `BadCommand` where there is neither; `Memory`.
    pub fn output_name(&self, alloc: Global) -> Result<String, Failure>
        ensures named { IfOk result (λ name. out_of self.now ≡ Some (string_bytes name)) }
        ensures nameless { IfErr result (IsNameless (out_of self.now)) }
    {
        let name = match (self.output, self.executables) {
            (Some(output), _) => String::from_str(alloc, output),
            (None, Some([executable])) => format!(in alloc; "{executable}.dwp"),
            (None, _) => return Err(Failure::BadCommand),
        };
        Ok(name?)
    }

    /// Whether each type unit that differs is told of with the inputs of it and of the one kept.
    pub(crate) fn tells_differences(&self) -> bool
        ensures { result ≡ names self.now.verbose self.now.warnings }
    {
        match self.warnings {
            Warnings::Each => self.verbose,
            Warnings::Once | Warnings::Never => false,
        }
    }

    /// Which warnings of type units that differ are printed behind those.
    fn warnings_left(&self) -> Warnings
        ensures { result ≡ others (names self.now.verbose self.now.warnings) self.now.warnings }
    {
        if self.tells_differences() {
            Warnings::Never
        } else {
            self.warnings
        }
    }

    /// Whether the package would take the place of an input, where that isn't asked for.
    fn overwrites<F: FileSystem>(&self, files: &F, output: &str) -> bool
        ensures apart { result ≡ false → self.now.force ≡ false
            → out_of self.now ≡ Some output.now → IsNoInput (F.known files.now) self.now }
        ensures forced { IsTrue result → self.now.force ≡ false }
        ensures leads { IsTrue result → out_of self.now ≡ Some output.now
            → IsInput (F.known files.now) self.now }
    {
        !self.force
            && (has_file(files, paths_in(self.inputs), output)
                || has_file(files, paths_in(self.executables), output))
    }
}

/// Why nothing was packed.
#[derive(Clone, Copy)]
pub(crate) enum NoPackage {
    /// No input began a package, which isn't told yet.
    Empty,
    /// An input was refused, or the package could not be finished, and that was told.
    Told,
    /// What the command was given can't be done.
    Command(Failure),
}

impl From<Failure> for NoPackage {
    ghost from_gives = { λ failure refusal. refusal ≡ Command failure };

    fn from(failure: Failure) -> NoPackage {
        NoPackage::Command(failure)
    }
}

impl From<AllocError> for NoPackage {
    ghost from_gives = { λ _ refusal. refusal ≡ Command Memory };

    fn from(_e: AllocError) -> NoPackage {
        NoPackage::Command(Failure::Memory)
    }
}

/// Whether one of these names is another name of a file.
fn has_file<F: FileSystem>(files: &F, names: &[&str], file: &str) -> bool
    ensures apart { result ≡ false → AllApart (F.known files.now) file.now names.now }
    ensures leads { IsTrue result → LeadTo (F.known files.now) file.now names.now }
{
    let own = files.identity(file);
    if own.is_none() {
        return false;
    }
    for name in names {
        if files.identity(name) == own {
            return true;
        }
    }
    false
}

/// Packs the inputs in order, then what each executable refers to, and writes the package: to the
/// file OUT, or where that is `-` to `out`. Stops at the first refusal, prints it, and then writes
/// nothing. Answers the status: 1 where an input is refused, or a package can't be made of them.
/// Errors: `Output` where the package's file can't be written, `Overwrites` where it is an input;
/// `BadCommand` where there is no name for it; `Line` or `Memory`; `Input` where nothing is split,
/// and the executable can't be read a second time.
#[tactic(auto, using(crate::proofs::Causes::early, crate::proofs::Causes::told_empty, crate::proofs::Causes::why_printing, crate::proofs::Causes::why_nameless, crate::proofs::Causes::why_stopped))]
pub fn pack<F: FileSystem, O: Write, E: LineOutput>(
    alloc: Global,
    files: &mut F,
    packing: &Packing<'_, '_>,
    out: &mut O,
    err: &mut E,
) -> Result<u8, Failure>
    ensures packed { result ≡ Ok 0 → Packs (reads packing.now (F.offer files.old)) packing.now
        (Put F.begun O.contents files.old files.new out.old out.new) }
    ensures warned { result ≡ Ok 0 → PacksTelling (reads packing.now (F.offer files.old))
        packing.now (Put F.begun O.contents files.old files.new out.old out.new)
        (E.contents err.old) (E.contents err.new) }
    ensures status { IfOk result (λ status. status ≤ 1) }
    ensures refused { result ≡ Ok 1 → (files.new ≡ files.old) × (out.new ≡ out.old) }
    ensures told { result ≡ Ok 1 → Told E.contents err.new (IsCauseFor
        (reads packing.now (F.offer files.old)) (declines packing.now (F.offer files.old))
        packing.now) }
    ensures failed { IfErr result (λ failure. Fails failure
        ((files.new ≡ files.old) × (out.new ≡ out.old))
        (Packs (reads packing.now (F.offer files.old)) packing.now
        (Begins F.begun O.contents files.old files.new out.old out.new))) }
    ensures why { IfErr result (FailsPacking F.offer F.known F.begun O.contents
        packing.now files.old files.new out.old out.new (E.failed err.new)) }
    ensures apart { packing.now.force ≡ false
        → (files.new ≡ files.old) ⊎ IsNoInput (F.known files.old) packing.now }
{
    let output = packing.output_name(alloc)?;
    let name = output.as_str();
    if packing.overwrites(files, name) {
        return Err(Failure::Overwrites);
    }
    match packed(alloc, files, packing, err) {
        Ok((object, differing, lines)) => {
            let warned = Warned {
                alloc,
                lines: lines.as_str(),
                differing: differing.as_slice(),
                warnings: packing.warnings_left(),
            };
            match write_then_warn(files, &object, warned, name, out, err) {
                Ok(()) => Ok(0),
                Err(failure) => Err(failure),
            }
        }
        Err(NoPackage::Empty) => match print_error(alloc, &Error::NoOutputObjectCreated, err) {
            Ok(()) => Ok(1),
            Err(failure) => Err(failure),
        },
        Err(NoPackage::Told) => Ok(1),
        Err(NoPackage::Command(failure)) => Err(failure),
    }
}

/// The object to be written for what is asked for, the type units that differ from the ones kept,
/// and lines: the warnings of sections of macros, and those of these type units by name.
fn packed<F: FileSystem, E: LineOutput>(
    alloc: Global,
    files: &F,
    packing: &Packing<'_, '_>,
    err: &mut E,
) -> Result<(WritableObject, Vec<DebugTypeSignature>, String), NoPackage>
    ensures ready { IfOk result (λ made. IsReady (reads packing.now (F.offer files.now)) packing.now
        (E.contents err.old) (E.contents err.new) made.0 made.1.items (string_bytes made.2)) }
    ensures told { IfErr result (Refuses E.contents E.failed err.new (IsCauseFor
        (reads packing.now (F.offer files.now)) (declines packing.now (F.offer files.now))
        packing.now)) }
{
    let list = inputs_of(alloc, packing)?;
    let inputs = InputFiles::new(alloc, files, packing)?;
    let options = ReportOptions {
        alloc,
        verbose: packing.verbose,
        warns: true,
        partial: packing.partial,
        names: packing.tells_differences(),
    };
    match packed_inputs(&inputs, list.as_slice(), options, err) {
        Ok((object, differing, named)) => {
            let mut lines = inputs.macro_warnings();
            lines.push_str(named.as_str())?;
            Ok((object, differing, lines))
        }
        Err(NoPackage::Empty) if packing.lets_empty => packed_unsplit(alloc, &inputs, err),
        Err(refusal) => Err(refusal),
    }
}

/// The object to be written where nothing is split: an executable is taken as an object too.
#[tactic(auto, using(crate::proofs::Causes::uncounted))]
fn packed_unsplit<F: FileSystem, E: LineOutput>(
    alloc: Global,
    inputs: &InputFiles<'_, F>,
    err: &mut E,
) -> Result<(WritableObject, Vec<DebugTypeSignature>, String), NoPackage>
    requires allowed { inputs.now.packing.now.lets_empty ≡ true }
    requires empty { IsCauseFor (taken_by F.offer inputs.now) (declined_by F.offer inputs.now)
        inputs.now.packing.now (Unfinished NoOutputObjectCreated) }
    ensures made { IfOk result (λ made. IsMadeFor (TellsTaken false false
        inputs.now.packing.now.partial) (taken_by F.offer inputs.now) inputs.now.packing.now
        (E.contents err.old) (E.contents err.new) made.0 made.1.items (string_bytes made.2)) }
    ensures told { IfErr result (Refuses E.contents E.failed err.new (IsCauseFor (taken_by F.offer
        inputs.now) (declined_by F.offer inputs.now) inputs.now.packing.now)) }
{
    let packing = inputs.packing;
    let Some(executable) = paths_in(packing.executables).first() else {
        return Err(NoPackage::Empty);
    };
    if inputs.unit_count(executable)? != Some(0) {
        return Err(NoPackage::Empty);
    }
    let mut list = inputs_of(alloc, packing)?;
    list.push(Input::Object(Path::new(*executable)))
        .map_err(|_| AllocError)?;
    let options = ReportOptions {
        alloc,
        verbose: false,
        warns: false,
        partial: packing.partial,
        names: packing.tells_differences(),
    };
    packed_inputs(inputs, list.as_slice(), options, err)
}

/// The paths of a list, none where there is no list.
pub(crate) fn paths_in<'m, 'a>(list: Option<&'m [&'a str]>) -> &'m [&'a str]
    ensures { result.now ≡ paths_in list.entry }
{
    match list {
        Some(paths) => paths,
        None => &[],
    }
}

/// The path of an input; none where no path names it.
pub(crate) fn path_of(input: Input<'_>) -> Option<Path<'_>>
    ensures { option_map path_bytes result ≡ path_of input.entry }
{
    match input {
        Input::Object(path)
        | Input::Executable(path, _)
        | Input::ExecutableSkippingNameless(path, _) => Some(path),
        Input::Bytes(_) => None,
    }
}

/// The objects, and then the executables.
fn inputs_of<'a>(alloc: Global, packing: &Packing<'_, 'a>) -> Result<Vec<Input<'a>>, AllocError>
    ensures { IfOk result (λ inputs. map asked inputs.items ≡ asks packing.now) }
{
    let objects = paths_in(packing.inputs);
    let executables = paths_in(packing.executables);
    let mut inputs = Vec::new(alloc);
    for object in objects {
        inputs.push(Input::Object(Path::new(*object)))?;
    }
    for executable in executables {
        let path = Path::new(*executable);
        inputs.push(match packing.nameless {
            NamelessUnits::Refused => Input::Executable(path, packing.missing),
            NamelessUnits::PassedOver => Input::ExecutableSkippingNameless(path, packing.missing),
        })?;
    }
    Ok(inputs)
}
