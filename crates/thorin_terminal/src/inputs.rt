//! The files of the system that `pack` reads and writes, and what is known and told of them.

ghost use Rattle.thorin_output.specs.Reads.{any_identity, anything};

use crate::progress::{Console, Lines};
use dwp_elf::{ElfFile, WritableObject, WriteError};
use std::cell::Cell;
use std::io::{self, ErrorKind, Write};
use std::path::{AsPath, Path};
use thorin_errors::InputError;
use thorin_files::{FileContents, FileError};
use thorin_inputs::{count_units, place_of};
use thorin_output::FileSystem;
use thorin_print::Failure;

/// The machines whose relocations are read, by their numbers (ELF gABI, `e_machine`).
const EM_386: u16 = 3;

const EM_X86_64: u16 = 62;

const EM_AARCH64: u16 = 183;

/// At how many ends of a path an object is sought: each is a call of the system.
const MOST_ENDS: usize = 64;

/// What a file is that packing may refuse for it.
#[derive(Clone, Copy)]
pub enum Peculiarity {
    /// An executable that names an object which isn't there.
    NamesMissing,
    /// A relocatable file for this machine, whose relocations aren't read.
    RelocatableFor(u16),
}

/// An input or an executable that the command line names.
#[derive(Drop)]
pub struct NamedFile {
    /// Its path.
    pub path: String,
    /// What it is, if that may be in the way.
    pub peculiarity: Option<Peculiarity>,
}

/// How files are read, and what is told meanwhile.
#[derive(Clone, Copy, Default)]
pub struct ReadingSettings {
    /// Whether regular files that aren't at their paths are sought elsewhere.
    pub seeks: bool,
    /// After how many milliseconds it is told how far packing is, if at all.
    pub patience: Option<u64>,
    /// How many files are to be read, where that is known.
    pub all: Option<u64>,
    /// Whether a line tells of each object that a file names.
    pub names_objects: bool,
}

/// Files that are packed, of which is known what notes say.
pub trait NotedFiles: FileSystem {
    /// Reads files by these settings, and tells what is told, up to `end`.
    fn begin(&self, settings: ReadingSettings);

    /// Nothing is told any more.
    fn end(&self);

    /// The last file that the command line names and that was read, as far as there was memory to
    /// keep it. Asked for once.
    fn last_named(&self) -> Option<NamedFile>;

    /// Why the package's file couldn't be written, if it couldn't. Asked for once.
    fn unwritten(&self) -> Option<io::Error>;
}

/// The files of the system, of which is counted what is read. What has no end, as a device, isn't
/// read. Where that is asked for, a regular file that isn't at its path is sought in the working
/// folder by the ends of the path, the longest first: so an object that was moved with its folders
/// is found by the name that the compiler was given for it.
#[derive(Drop)]
pub struct HostFiles<'c, 'r, 'e, E> {
    rt: &'r HostRuntime,
    console: &'c Console<'r, 'e, E>,
    settings: Cell<ReadingSettings>,
    /// The last file that the command line names and that was read.
    named: Cell<Option<NamedFile>>,
    /// Why the last file couldn't be written.
    unwritten: Cell<Option<io::Error>>,
}

impl<'c, 'r, 'e, E: Write> HostFiles<'c, 'r, 'e, E> {
    /// Those of the runtime, told of on a console.
    pub fn new(rt: &'r HostRuntime, console: &'c Console<'r, 'e, E>) -> HostFiles<'c, 'r, 'e, E> {
        HostFiles {
            rt,
            console,
            settings: Cell::new(ReadingSettings::default()),
            named: Cell::new(None),
            unwritten: Cell::new(None),
        }
    }

    /// The longest end of a path at which there is a regular file, where files are sought.
    fn end_of<'p>(&self, path: &'p str) -> Option<&'p str> {
        if !self.settings.get().seeks {
            return None;
        }
        let mut rest = path;
        for _ in 0..MOST_ENDS {
            let (_front, end) = rest.split_once('/')?;
            if thorin_files::is_file(self.rt, end) {
                return Some(end);
            }
            rest = end;
        }
        None
    }

    /// Reads a regular file at its path, or else at an end of it. Where it is at none, the file
    /// that names it names a missing one.
    fn read_sought(&self, path: Path<'_>, room: &mut Vec<u8>) -> io::Result<()> {
        let answer = thorin_files::read_regular_over(self.rt, path, room);
        if !is_not_found(&answer) {
            return answer;
        }
        if let Some(end) = self.end_of(path.path_text()) {
            return thorin_files::read_regular_over(self.rt, Path::new(end), room);
        }
        if let Some(mut named) = self.named.replace(None) {
            named.peculiarity = Some(Peculiarity::NamesMissing);
            self.named.set(Some(named));
        }
        answer
    }
}

/// Whether nothing was there to be read.
fn is_not_found(answer: &io::Result<()>) -> bool {
    matches!(answer, Err(cause) if cause.kind() == ErrorKind::NotFound)
}

/// What a file is, by its first bytes (ELF gABI, "ELF Header"): a relocatable one has type 1, in
/// either byte order.
fn peculiarity_of(bytes: &[u8]) -> Option<Peculiarity> {
    let machine = ElfFile::parse(bytes).ok()?.machine();
    match (machine, bytes.get(16), bytes.get(17)) {
        (EM_386 | EM_X86_64 | EM_AARCH64, _, _) => None,
        (_, Some(1), Some(0)) | (_, Some(0), Some(1)) => Some(Peculiarity::RelocatableFor(machine)),
        _ => None,
    }
}

impl<E: Write> FileSystem for HostFiles<'_, '_, '_, E> {
    ghost offer = { λ _. anything };

    ghost known = { λ _. any_identity };

    fn read_over(&self, path: Path<'_>, room: &mut Vec<u8>) -> Result<(), InputError> {
        self.named.set(None);
        thorin_files::read_over(self.rt, path, room)?;
        let peculiarity = peculiarity_of(room);
        if let Ok(path) = String::from_str(self.rt.alloc(), path.path_text()) {
            self.named.set(Some(NamedFile { path, peculiarity }));
        }
        self.console.count(room.len());
        Ok(())
    }

    fn read_regular_over(&self, path: Path<'_>, room: &mut Vec<u8>) -> Result<(), InputError> {
        self.read_sought(path, room)?;
        self.console.count(room.len());
        if !self.settings.get().names_objects {
            return Ok(());
        }
        // The object is told as one that the file names.
        let Some(named) = self.named.replace(None) else {
            return Ok(());
        };
        let place = place_of(self.rt.alloc(), named.path.as_str(), Some(path.path_text()));
        self.named.set(Some(named));
        if let Ok(place) = place {
            let mut err = Lines(self.console);
            let _ = match count_units(room) {
                Some(1) => writeln!(err, "{place}: 1 unit"),
                Some(units) => writeln!(err, "{place}: {units} units"),
                None => writeln!(err, "{place}"),
            };
        }
        Ok(())
    }

    fn try_regular(&self, path: Path<'_>) -> Result<(), InputError> {
        let answer = thorin_files::try_regular(self.rt, path);
        if is_not_found(&answer) {
            if let Some(end) = self.end_of(path.path_text()) {
                return Ok(thorin_files::try_regular(self.rt, Path::new(end))?);
            }
        }
        Ok(answer?)
    }

    fn identity(&self, name: &str) -> Option<(u64, u64)> {
        thorin_files::identity(self.rt, name)
    }

    fn object_identity(&self, name: &str) -> Option<(u64, u64)> {
        match self.identity(name) {
            None => self.identity(self.end_of(name)?),
            identity => identity,
        }
    }

    fn is_regular(&self, name: &str) -> bool {
        thorin_files::is_file(self.rt, name)
    }

    fn write_object(&mut self, object: &WritableObject, name: &str) -> Result<(), Failure> {
        match thorin_files::write(self.rt, &WholeObject(object), name) {
            Ok(()) => Ok(()),
            Err(FileError::Io(cause)) => {
                self.unwritten.set(Some(cause));
                Err(Failure::Output)
            }
            Err(FileError::Memory) => Err(Failure::Memory),
        }
    }
}

impl<E: Write> NotedFiles for HostFiles<'_, '_, '_, E> {
    fn begin(&self, settings: ReadingSettings) {
        self.settings.set(settings);
        if let Some(patience) = settings.patience {
            self.console.begin(patience, settings.all);
        }
    }

    fn end(&self) {
        self.console.clear();
    }

    fn last_named(&self) -> Option<NamedFile> {
        self.named.replace(None)
    }

    fn unwritten(&self) -> Option<io::Error> {
        self.unwritten.replace(None)
    }
}

/// An object, as what its file is to hold.
#[derive(Drop)]
struct WholeObject<'o>(&'o WritableObject);

impl FileContents for WholeObject<'_> {
    fn write<W: Write>(&self, file: &mut W) -> Result<(), io::Error> {
        match self.0.write_to(file) {
            Ok(()) => Ok(()),
            Err(WriteError::Io(cause)) => Err(cause),
            Err(_) => Err(io::Error::from(io::ErrorKind::Other)),
        }
    }
}
