//! The commands, over the files of a system, its clock, and two writers.

ghost use Rattle.std.specs.Prelude.{◌≡◌, Err};
ghost use Rattle.thorin_print.specs.Watching.{LacksLine};
ghost use Rattle.thorin_check.specs.Checking.{Checks};
ghost use Rattle.thorin_reading.specs.Taken.{Takes};
ghost use Rattle.thorin_cli.specs.Doing.{Answers, DoesCall, HasStatus, Verifies};
ghost use Rattle.thorin_cli.specs.Programs.{KeepsPlaces, state_of, system};

use crate::notes::{Lookup, note_listed, note_packing, note_reading, note_refused, note_why};
use crate::settings::{form_of, nameless_units, packing_of};
use crate::system::{NotedReader, ProgramManner};
use std::alloc::Global;
use std::fmt;
use std::io::{self, Write};
use thorin_arguments::{CheckArguments, Commands, FindArguments, ListArguments, PackArguments};
use thorin_check::{Reading, check_by};
use thorin_commands::{Packing, list_missing, pack, reason};
use thorin_find::{FindForm, FindWords, ListForm, find_by, list_by};
use thorin_print::{Failure, Form, WatchedLines, show};
use thorin_reading::PlainReader;
use thorin_terminal::{NotedFiles, ReadingSettings, WatchedWriter};

/// The program: what it uses of the system, and where it prints.
#[derive(Drop)]
pub(crate) struct Program<'s, 'o, 'e, F, R, O, E> {
    pub(crate) alloc: Global,
    pub(crate) manner: ProgramManner,
    pub(crate) patience: u64,
    pub(crate) files: &'s mut F,
    pub(crate) reader: &'s R,
    pub(crate) out: &'o mut WatchedWriter<O>,
    pub(crate) err: &'e mut WatchedLines<E>,
}

impl<F: NotedFiles, R: NotedReader, O: Write, E: Write> Program<'_, '_, '_, F, R, O, E> {
    /// The status of a command that read these files. Where it was refused, that is printed.
    fn status(
        &mut self,
        answer: Result<u8, Failure>,
        lookup: Lookup<'_>,
        files: &PlainReader<'_, R>,
    ) -> u8
        ensures has { HasStatus (system F.offer F.known F.begun O.contents E.contents
            (R.offer self.old.reader.now)) (state_of self.new) answer result }
        ensures kept { (self.new.files ≡ self.old.files) × (self.new.out ≡ self.old.out) }
        ensures place { self.new.err.ghost_name ≡ self.old.err.ghost_name }
    {
        match answer {
            Ok(status) => status,
            Err(failure) => {
                let status = self.report(&failure);
                note_reading(self.alloc, &failure, lookup, files, &mut self.err.writer);
                status
            }
        }
    }

    /// Prints why a command failed, and answers the status. That nobody reads standard output any
    /// more isn't told: whoever closed the pipe has what they wanted.
    fn report(&mut self, failure: &Failure) -> u8
        ensures has { HasStatus (system F.offer F.known F.begun O.contents E.contents
            (R.offer self.old.reader.now)) (state_of self.new) (Err failure.now) result }
        ensures kept { (self.new.files ≡ self.old.files) × (self.new.out ≡ self.old.out) }
        ensures place { self.new.err.ghost_name ≡ self.old.err.ghost_name }
        ensures once { LacksLine self.old.err.now → LacksLine self.new.err.now }
    {
        match self.out.failure() {
            Some(cause) if matches!(failure, Failure::Line) => {
                if cause.kind() == io::ErrorKind::BrokenPipe {
                    return 1;
                }
                let status = self.err.report(failure);
                let why = reason(self.alloc, &cause);
                note_why(self.alloc, "standard output", why, &mut self.err.writer);
                status
            }
            _ => self.err.report(failure),
        }
    }

    /// Checks the package that would be made.
    fn verify_as(&mut self, packing: &Packing<'_, '_>) -> u8
        ensures done { Answers (system F.offer F.known F.begun O.contents E.contents
            (R.offer self.old.reader.now)) (state_of self.new)
            (Verifies (system F.offer F.known F.begun O.contents E.contents
            (R.offer self.old.reader.now)) packing.now (state_of self.old)
            (state_of self.new)) result }
        ensures places { KeepsPlaces self.old self.new }
    {
        let reading = Reading {
            form: Form::Lines,
            nameless: packing.nameless,
        };
        match packing.output_name(self.alloc) {
            Ok(output) => {
                let executables = packing.executables.unwrap_or(&[]);
                let decompresses = packing.decompresses;
                self.check_as(output.as_str(), executables, decompresses, reading)
            }
            Err(failure) => self.report(&failure),
        }
    }

    /// Checks a package, for executables that are decompressed as it is.
    fn check_as(
        &mut self,
        file: &str,
        executables: &[&str],
        decompresses: bool,
        reading: Reading,
    ) -> u8
        ensures done { Answers (system F.offer F.known F.begun O.contents E.contents
            (R.offer self.old.reader.now)) (state_of self.new)
            (Checks (Takes decompresses (R.offer self.old.reader.now)) file.now
            (record { paths = executables.now; reading = reading })
            (O.contents self.old.out.now.out) (O.contents self.new.out.now.out)) result }
        ensures files { self.new.files ≡ self.old.files }
        ensures out { self.new.out.ghost_name ≡ self.old.out.ghost_name }
        ensures err { self.new.err.ghost_name ≡ self.old.err.ghost_name }
    {
        let files = PlainReader::new(self.alloc, self.reader, decompresses);
        let answer = check_by(self.alloc, &files, file, executables, reading, self.out);
        self.status(answer, Lookup::file(file), &files)
    }
}

impl<F: NotedFiles, R: NotedReader, O: Write, E: Write> Commands
    for Program<'_, '_, '_, F, R, O, E> {
    // The files and standard output stay where they are, and the call does what it is for.
    ghost does = { λ old call status new. KeepsPlaces old new
        × DoesCall (system F.offer F.known F.begun O.contents E.contents (R.offer old.reader.now))
        old.manner (state_of old) call status (state_of new) };

    fn pack(&mut self, arguments: PackArguments<'_, '_>) -> u8 {
        let packing = packing_of(arguments, self.manner);
        if arguments.verifies_only {
            return self.verify_as(&packing);
        }
        let packs = !arguments.lists_missing;
        let is_shown = packs && self.manner.on_terminal && !packing.verbose;
        self.files.begin(ReadingSettings {
            seeks: self.manner.of_peer,
            patience: is_shown.then_some(self.patience),
            // (executables name more)
            all: match (packing.inputs, packing.executables) {
                (Some(inputs), None) => Some(inputs.len() as u64),
                _ => None,
            },
            names_objects: packs && packing.verbose,
        });
        let alloc = self.alloc;
        if arguments.lists_missing {
            return match list_missing(alloc, self.files, &packing, self.out, &mut self.err.writer) {
                Ok(status) => status,
                Err(failure) => self.report(&failure),
            };
        }
        let answer = pack(alloc, self.files, &packing, self.out, self.err);
        self.files.end();
        match answer {
            Ok(0) => 0,
            Ok(status) => {
                let named = self.files.last_named();
                note_refused(alloc, &packing, &named, &mut self.err.writer);
                status
            }
            Err(failure) => {
                let status = self.report(&failure);
                let cause = self.files.unwritten();
                note_packing(alloc, &failure, &packing, cause, &mut self.err.writer);
                status
            }
        }
    }

    fn find(&mut self, arguments: FindArguments<'_>) -> u8 {
        let form = FindForm {
            string: arguments.string,
            section: arguments.section,
            form: form_of(arguments.json),
        };
        let asked = FindWords {
            kind: arguments.kind,
            id: arguments.id,
            form,
        };
        let files = PlainReader::new(self.alloc, self.reader, arguments.decompresses);
        let answer = find_by(self.alloc, &files, arguments.file, asked, self.out);
        let lookup = Lookup {
            file: arguments.file,
            kind: arguments.kind,
            id: arguments.id,
            wanted: arguments.string.or(arguments.section).unwrap_or(""),
        };
        self.status(answer, lookup, &files)
    }

    fn list(&mut self, file: &str, arguments: ListArguments) -> u8 {
        let form = ListForm {
            sizes: arguments.sizes,
            names: arguments.names,
            columns: arguments.columns,
            form: form_of(arguments.json),
        };
        let files = PlainReader::new(self.alloc, self.reader, arguments.decompresses);
        let answer = list_by(self.alloc, &files, file, form, self.out);
        if answer.is_ok() {
            let kind = files.kind();
            let on_terminal = self.manner.on_terminal;
            note_listed(self.alloc, file, kind, on_terminal, &mut self.err.writer);
        }
        self.status(answer, Lookup::file(file), &files)
    }

    fn check(&mut self, arguments: CheckArguments<'_, '_>) -> u8 {
        let reading = Reading {
            form: form_of(arguments.json),
            nameless: nameless_units(arguments.skips_nameless),
        };
        let file = arguments.file;
        let executables = arguments.executables;
        self.check_as(file, executables, arguments.decompresses, reading)
    }

    fn show<D: fmt::Display>(&mut self, text: &D) -> u8 {
        if show(self.out, text) {
            0
        } else {
            self.report(&Failure::Line)
        }
    }

    fn refuse<D: fmt::Display>(&mut self, text: &D) -> u8 {
        if self.err.show(text) { 2 } else { 1 }
    }

    fn refuse_words(&mut self) -> u8 {
        self.err.report(&Failure::BadCommand)
    }

    fn lack_memory(&mut self) -> u8 {
        self.err.report(&Failure::Memory)
    }
}
