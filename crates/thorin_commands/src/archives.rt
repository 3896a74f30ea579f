//! Archives as inputs of `pack`.

ghost use Rattle.std.specs.Prelude.{◌≡◌, ◌⊎◌, ◌-◌, ◌∷◌, [], OnOk, IfErr, true};
ghost use Rattle.thorin.specs.declared.packing.Input.TheVariants.{Object};
ghost use Rattle.dwp_archive.specs.View as view;
ghost use Rattle.thorin_output.specs.Warnings.{IsPrinted};
ghost use Rattle.thorin_commands.specs.Archives.{is_archive, is_split, split_contents};
ghost use Rattle.thorin_commands.specs.Cause.{IsMalformed, IsNotTaken, IsTakenNot, IsUnfit};
ghost use Rattle.thorin_commands.specs.Cause.{IsUntaken, Refuses, StopsAmong, StopsIn};
ghost use Rattle.thorin_commands.specs.Opened.{TookAll, TookEach, TookMembers, unit_count};
ghost use Rattle.thorin_commands.specs.Reading.{declined_by, manner_in, taken_by};
ghost use Rattle.thorin_commands.specs.Warned.{TellsAdded, path_of};

use crate::making::{Attempt, settle};
use crate::notes::{Origin, now_in, place_of_refused, unit_count};
use crate::packing::NoPackage;
use crate::reading::{InputFiles, or_content};
use crate::telling::{ReportOptions, put_error, put_notes, tell_added, tell_refused, tell_why};
use dwp_archive::{ArchiveError, Member, members};
use dwp_bytes::RelocationEntry;
use dwp_elf::ElfFile;
use std::alloc::Global;
use std::path::{AsPath, Path};
use thorin::{DwarfPackage, Input, NotTaken, take_input};
use thorin_errors::Error;
use thorin_inputs::{Growth, MEMBER_NAME_READ, note_alone, note_reason, place_of_member};
use thorin_output::FileSystem;
use thorin_print::{Failure, LineOutput, shown};
use thorin_sessions::Session;

/// What helps where an archive is thin.
const THIN: &'static str = "its members are files: name these, as `ar t` lists them";

/// Whether bytes are those of an archive, plain or thin.
#[tactic(auto, unfolding(crate::specs::Archives::is_archive))]
fn is_archive(bytes: &[u8]) -> bool
    ensures { result ≡ is_archive bytes.now }
{
    bytes.starts_with(b"!<arch>\n") || bytes.starts_with(b"!<thin>\n")
}

/// Whether bytes are ELF, with a section of split units, or can't be read.
#[tactic(auto, unfolding(crate::specs::Archives::is_split))]
fn is_split(bytes: &[u8]) -> bool
    ensures { result ≡ is_split bytes.now }
{
    match ElfFile::parse(bytes) {
        Ok(file) => {
            file.section_by_name(".debug_info.dwo").is_some()
                || file.section_by_name(".zdebug_info.dwo").is_some()
        }
        Err(_) => bytes.starts_with(b"\x7fELF"),
    }
}

/// Takes the file at a path: an object, or where it is an archive its members that have split
/// units. Tells what came of it where that is asked for.
#[tactic(auto, using(crate::proofs::Causes::stops_by))]
pub(crate) fn take_opened<'o, 's: 'o, Sess: Session<RelocationEntry>, F: FileSystem, E: LineOutput>(
    inputs: &InputFiles<'_, F>,
    builder: &mut DwarfPackage<'o, 's, Sess>,
    room: &mut Vec<u8>,
    path: Path<'_>,
    options: ReportOptions,
    err: &mut E,
) -> Result<(), NoPackage>
    requires { inputs.now.packing.now.opens_archives ≡ true }
    ensures took { OnOk result (TookAll inputs.now.packing.now.opens_archives (manner_in inputs.now)
        (taken_by F.offer inputs.now) (Object path.entry) builder.old.state builder.new.state) }
    ensures line { OnOk result (IsPrinted (E.contents err.old) (E.contents err.new)
        (TellsAdded options.verbose (path_of (Object path.entry))
        (unit_count builder.new.state - unit_count builder.old.state))) }
    ensures told { IfErr result (Refuses E.contents E.failed err.new (IsNotTaken
        inputs.now.packing.now.opens_archives (manner_in inputs.now) (taken_by F.offer inputs.now)
        (declined_by F.offer inputs.now) (Object path.entry) builder.old.state)) }
{
    inputs.begin(Input::Object(path));
    match inputs.fetch(true, path, room) {
        Ok(()) => {
            let bytes = room.as_slice();
            if is_archive(bytes) {
                let file = OpenedFile {
                    path,
                    bytes,
                    options,
                };
                take_members(inputs, builder, file, err)
            } else {
                let before = unit_count(builder);
                let mut object_room = Vec::new(options.alloc);
                let outcome = take_input(builder, inputs, &mut object_room, Input::Bytes(bytes));
                let attempt = Attempt {
                    input: Input::Object(path),
                    room: bytes,
                    before,
                };
                settle(inputs, builder, attempt, outcome, options, err)
            }
        }
        Err(why) => {
            let why = NotTaken::from(why);
            let notes = &inputs.notes;
            tell_refused(options.alloc, notes, Input::Object(path), &why, None, err)?;
            Err(NoPackage::Told)
        }
    }
}

/// A file that was read where archives are opened, and what is told of it.
#[derive(Clone, Copy)]
struct OpenedFile<'f> {
    path: Path<'f>,
    bytes: &'f [u8],
    options: ReportOptions,
}

/// Takes the members of an archive that have split units, in order, and tells what came of it.
#[tactic(auto, using(crate::proofs::Causes::stops_by))]
fn take_members<'o, 's: 'o, Sess: Session<RelocationEntry>, F: FileSystem, E: LineOutput>(
    inputs: &InputFiles<'_, F>,
    builder: &mut DwarfPackage<'o, 's, Sess>,
    file: OpenedFile<'_>,
    err: &mut E,
) -> Result<(), NoPackage>
    ensures took { OnOk result (TookMembers (manner_in inputs.now) (taken_by F.offer inputs.now)
        file.entry.bytes.now builder.old.state builder.new.state) }
    ensures line { OnOk result (IsPrinted (E.contents err.old) (E.contents err.new)
        (TellsAdded file.entry.options.verbose (path_of (Object file.entry.path))
        (unit_count builder.new.state - unit_count builder.old.state))) }
    ensures told { IfErr result (Refuses E.contents E.failed err.new (StopsIn (taken_by F.offer
        inputs.now) (declined_by F.offer inputs.now) (manner_in inputs.now) file.entry.bytes.now
        builder.old.state)) }
{
    let before = unit_count(builder);
    let members = match members(file.options.alloc, file.bytes) {
        Ok(members) => members,
        Err(error) => return Err(malformed(file, error, err)),
    };
    let list = members.as_slice();
    for member in list {
        take_split(inputs, builder, *member, file, err)?;
    }
    let attempt = Attempt {
        input: Input::Object(file.path),
        room: file.bytes,
        before,
    };
    let units = unit_count(builder);
    tell_added(inputs.files, attempt, units, file.options, err)?;
    Ok(())
}

/// Takes a member of an archive, where it has split units, and keeps it for notes.
#[tactic(auto, using(crate::proofs::Causes::stops_by))]
fn take_split<'o, 's: 'o, Sess: Session<RelocationEntry>, F: FileSystem, E: LineOutput>(
    inputs: &InputFiles<'_, F>,
    builder: &mut DwarfPackage<'o, 's, Sess>,
    member: Member<'_>,
    file: OpenedFile<'_>,
    err: &mut E,
) -> Result<(), NoPackage>
    ensures took { OnOk result (TookEach (manner_in inputs.now) (taken_by F.offer inputs.now)
        (split_contents (view.member member.entry ∷ [])) builder.old.state builder.new.state) }
    ensures kept { OnOk result (err.new ≡ err.old) }
    ensures told { IfErr result (Refuses E.contents E.failed err.new (IsUntaken (StopsAmong
        (taken_by F.offer inputs.now) (declined_by F.offer inputs.now) (manner_in inputs.now)
        (split_contents (view.member member.entry ∷ [])) builder.old.state))) }
{
    let content = member.content();
    if !is_split(content) {
        return Ok(());
    }
    match take_content(file.options.alloc, inputs, builder, content) {
        Ok(()) => {
            let name = member.beginning_of_name(MEMBER_NAME_READ);
            let origin = Origin::Member(file.path.path_text(), name);
            inputs.notes.keep_taken(origin, now_in(builder));
            Ok(())
        }
        Err(why) => {
            let alloc = file.options.alloc;
            let name = member.beginning_of_name(MEMBER_NAME_READ);
            let place = place_of_member(alloc, file.path.path_text(), name).ok();
            let before = place_of_refused(builder, &why);
            tell_why(alloc, &inputs.notes, &why, place.as_deref(), before, err)?;
            Err(NoPackage::Told)
        }
    }
}

/// Takes what is taken for the content of a member.
fn take_content<'o, 's: 'o, Sess: Session<RelocationEntry>, F: FileSystem>(
    alloc: Global,
    inputs: &InputFiles<'_, F>,
    builder: &mut DwarfPackage<'o, 's, Sess>,
    content: &[u8],
) -> Result<(), NotTaken<Error, Growth>>
    ensures took { OnOk result (TookEach (manner_in inputs.now) (taken_by F.offer inputs.now)
        (content.now ∷ []) builder.old.state builder.new.state) }
    ensures refused { IfErr result (λ why. IsUnfit (manner_in inputs.now) content.now why ⊎
        IsTakenNot (taken_by F.offer inputs.now) (declined_by F.offer inputs.now) (manner_in
        inputs.now) content.now builder.old.state why) }
{
    match inputs.taken(false, content, "", true) {
        Ok(taken) => {
            let mut room = Vec::new(alloc);
            let bytes = or_content(content, &taken);
            take_input(builder, inputs, &mut room, Input::Bytes(bytes))
        }
        Err(why) => Err(NotTaken::from(why)),
    }
}

/// What becomes of an archive whose members can't be told: why, and which it is, is printed here.
#[tactic(auto, using(crate::proofs::Causes::stops_by))]
fn malformed<E: LineOutput>(file: OpenedFile<'_>, error: ArchiveError, err: &mut E) -> NoPackage
    ensures { Refuses E.contents E.failed err.new (IsMalformed error) result }
{
    if let ArchiveError::Memory = error {
        return NoPackage::Command(Failure::Memory);
    }
    let alloc = file.options.alloc;
    if let Err(failure) = put_error(alloc, error.text(), err) {
        return NoPackage::Command(failure);
    }
    let mut notes = Vec::new(alloc);
    if let Ok(archive) = shown(alloc, file.path.path_text()) {
        match error {
            ArchiveError::Thin => note_reason(archive.as_str(), THIN, &mut notes),
            _ => note_alone(archive.as_str(), &mut notes),
        }
    }
    put_notes(notes.as_slice(), err);
    NoPackage::Told
}
