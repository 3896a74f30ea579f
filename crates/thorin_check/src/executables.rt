//! The units that executables name, in `thorin check`.
#![tactic(auto, using(crate::proofs::Told::exits, crate::proofs::Told::text_told))]

ghost use Rattle.thorin_check.specs.Faults.{longest_path, missing_faults, missing_text, TellsNamed};
ghost use Rattle.std.specs.Prelude.{false, IfOk, length, OnOk, string_bytes, true, ◌+◌, ◌<◌, ◌≡◌};
ghost use Rattle.thorin_check.specs.{Faults.IsBroken, Faults.long_size, Rendering.of_executable};
ghost use Rattle.thorin_check.specs.Telling.{Is, IsFault, so_far, Tells, TellsOr};
ghost use Rattle.{dwp_index.specs.Package.found, thorin_print.specs.Shown.shown};
ghost use Rattle.thorin_errors.specs.declared.error.Error.TheVariants.{Memory};
ghost use Rattle.thorin_check.specs.Checking.{IsOfReading, TellsExecutable};
ghost use Rattle.std.specs.Prelude.{◌≢◌, ◌≤◌};

use crate::faults::{Fault, Faults, some, tell, tell_fault};
use bumpalo::Bump;
use dwp_index::PackageFile;
use dwp_table::DwarfObject;
use std::alloc::{AllocError, Global};
use std::io::Write;
use thorin_errors::Error;
use thorin_executable::{NamedUnits, NamelessUnits};
use thorin_find::{FileReader, read_named};
use thorin_print::{Failure, Form, shown, shown_briefly};
use thorin_sessions::BytesSession;
use thorin_words::printed;

/// The longest path that Linux opens: its PATH_MAX (limits.h) counts a zero byte behind it.
const LONGEST_PATH: usize = 4095;

/// How many bytes longer paths of an executable may have in any case: else as many as it has.
const LEAST_ROOM: usize = 4096;

/// How the executables are read whose units are to be in a package, and how faults are printed.
#[derive(Clone, Copy)]
pub struct Reading {
    /// How faults are printed.
    pub form: Form,
    /// What becomes of their units that name no object.
    pub nameless: NamelessUnits,
}

/// Each split unit that an executable names is in the package, and it names one.
pub(crate) fn check_executable<F: FileReader, O: Write>(
    files: &F,
    pack: &PackageFile<'_>,
    executable: &str,
    reading: Reading,
    faults: &mut Faults,
    out: &mut O,
) -> Result<(), Failure>
    ensures { TellsOr (IsOfReading (F.offer files.now) executable.now)
        (TellsExecutable (F.offer files.now) reading pack.now executable.now)
        (so_far (O.contents out.old) faults.old) (so_far (O.contents out.new) faults.new) result }
{
    let read = read_named(files, executable)?;
    let bytes = read.as_slice();
    let alloc = *faults.waiting.allocator();
    let bump = Bump::new(alloc);
    let session = BytesSession::new(&bump);
    match NamedUnits::read_by(alloc, &session, bytes, reading.nameless) {
        Ok(mut units) => {
            let room = bytes.len().max(LEAST_ROOM);
            check_listed(pack, executable, &mut units, room, faults, out)
        }
        Err(error) => tell_error(executable, &error, faults, out),
    }
}

/// Checks the units that an executable names, with room for so many bytes of long paths but the
/// first; where there is none left for the next, this is told.
fn check_listed<O: Write>(
    pack: &PackageFile<'_>,
    executable: &str,
    units: &mut NamedUnits<'_>,
    room: usize,
    faults: &mut Faults,
    out: &mut O,
) -> Result<(), Failure>
    ensures { Tells (TellsNamed pack.now executable.now room units.old.listed)
        (so_far (O.contents out.old) faults.old) (so_far (O.contents out.new) faults.new) result }
{
    let mut left = room;
    let mut is_first = true;
    loop {
        match units.next() {
            Ok(Some(unit)) => {
                let path = units.path();
                if !has_room(&mut left, unit.is_repeated || is_first, path) {
                    let cause = "too many paths past 4095 bytes";
                    return tell_broken(executable, cause, faults, out);
                }
                check_skeleton(pack, executable, unit.target, path, faults, out)?;
                is_first = false;
            }
            Ok(None) => {
                if is_first {
                    return tell_of(executable, "no split units", faults, out);
                }
                return Ok(());
            }
            Err(error) => return tell_error(executable, &error, faults, out),
        }
    }
}

/// Whether there is room for a unit's path, which takes some where no system opens one as long,
/// unless it is free.
fn has_room(room: &mut usize, is_free: bool, path: &str) -> bool
    ensures long { result ≡ false → longest_path < length path.now }
    ensures over { result ≡ false → room.old < length path.now }
    ensures fits { result ≡ true → room.old ≤ room.new + long_size path.now }
{
    if is_free || path.len() <= LONGEST_PATH {
        return true;
    }
    match room.checked_sub(path.len()) {
        Some(left) => {
            *room = left;
            true
        }
        None => false,
    }
}

/// A unit that an executable names is in the package; what a slot names and can't be read was told
/// with its unit.
fn check_skeleton<O: Write>(
    pack: &PackageFile<'_>,
    executable: &str,
    object: DwarfObject,
    path: &str,
    faults: &mut Faults,
    out: &mut O,
) -> Result<(), Failure>
    ensures { Tells (Is (missing_faults executable.now (object, path.now) (found pack.now object)))
        (so_far (O.contents out.old) faults.old) (so_far (O.contents out.new) faults.new) result }
{
    match pack.find(object) {
        Ok(None) => {
            let text = missing_text(*faults.waiting.allocator(), executable, path);
            tell(object, some(text), faults, out)
        }
        Ok(Some(_)) => Ok(()),
        Err(_) => Ok(()),
    }
}

/// What is told of a unit that the package lacks: the executable that names it, and the path of its
/// object.
fn missing_text(alloc: Global, executable: &str, path: &str) -> Result<String, AllocError>
    ensures { IfOk result (λ text. string_bytes text ≡ missing_text executable.now path.now) }
{
    let executable = shown_briefly(alloc, executable)?;
    let executable = executable.as_str();
    let path = shown_briefly(alloc, path)?;
    let path = path.as_str();
    format!(in alloc; "not in the package, {executable} names {path}")
}

/// Tells what is wrong with an executable.
fn tell_of<O: Write>(
    executable: &str,
    what: &str,
    faults: &mut Faults,
    out: &mut O,
) -> Result<(), Failure>
    ensures { Tells (IsFault (of_executable (shown executable.now) what.now))
        (so_far (O.contents out.old) faults.old) (so_far (O.contents out.new) faults.new) result }
{
    let name = shown(*faults.waiting.allocator(), executable)?;
    tell_fault(Fault::Executable(name.as_str(), what), faults, out)
}

/// Tells why an executable can't be read to its end.
fn tell_error<O: Write>(
    executable: &str,
    error: &Error,
    faults: &mut Faults,
    out: &mut O,
) -> Result<(), Failure>
    ensures told { Tells (IsBroken executable.now) (so_far (O.contents out.old) faults.old)
        (so_far (O.contents out.new) faults.new) result }
    ensures known { OnOk result (error.now ≢ Memory) }
{
    if matches!(error, Error::Memory) {
        return Err(Failure::Memory);
    }
    let text = format!(in *faults.waiting.allocator(); "{error}")?;
    tell_broken(executable, text.as_str(), faults, out)
}

/// Tells why an executable isn't read to its end.
fn tell_broken<O: Write>(
    executable: &str,
    cause: &str,
    faults: &mut Faults,
    out: &mut O,
) -> Result<(), Failure>
    ensures { Tells (IsBroken executable.now) (so_far (O.contents out.old) faults.old)
        (so_far (O.contents out.new) faults.new) result }
{
    let text = printed(*faults.waiting.allocator(), cause)?;
    tell_of(executable, text.as_str(), faults, out)
}
