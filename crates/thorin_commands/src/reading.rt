//! The reader of the inputs of `pack`: files are read, decompressed, left with the macros that are
//! kept, and tested for strings and sections that overlap.

ghost use Rattle.thorin_inputs.specs.Plain as spec;
ghost use Rattle.std.specs.Prelude.{Err, IfErr, IfOk, IsTrue, Ok, OnOk, string_bytes, ◌≡◌, ◌⊎◌};
ghost use Rattle.thorin_commands.specs.Packing.{declines, manner_of, paths_in, read_through, reads};
ghost use Rattle.thorin_commands.specs.Taken.{DeclinesBytes, IsPlainFor, IsReadInto, IsTakenFor};
ghost use Rattle.std.specs.Path.{path_bytes};
ghost use Rattle.thorin_builder.specs.Reading.{IsRead, OnDeclined, OnFailed};
ghost use Rattle.thorin_sessions.specs.Sessions.{IsNoWantOfMemory};
ghost use Rattle.thorin_errors.specs.declared.error.InputError.TheVariants.{Memory};
ghost use Rattle.thorin_commands.specs.{Naming.IsUncounted, Packing.IsAmong, Taken.MayRepeat};
ghost use Rattle.thorin_commands.specs.Warned.{TellsMacros};

use crate::notes::{Holding, Notes};
use crate::packing::{Packing, paths_in};
use dwp_macros::{MacrosError, with_macros};
use dwp_table::{DebugTypeSignature, DwarfObject};
use std::alloc::{AllocError, Global};
use std::cell::Cell;
use std::path::{AsPath, Path};
use thorin::{Input, InputReader, NotTaken, Repetition};
use thorin_errors::InputError;
use thorin_inputs::{
    Compression, Growth, Places, PlainError, Prefixes, Repetitions, count_units, decompress,
    has_compressed_overlap, has_inner_strings, has_overlap, plain_of, reason,
};
use thorin_output::FileSystem;
use thorin_print::Failure;

/// Files as inputs. It declines those that would make the package larger than its files.
#[derive(Drop)]
pub(crate) struct InputFiles<'f, F> {
    alloc: Global,
    pub(crate) files: &'f F,
    /// How they are read.
    pub(crate) packing: &'f Packing<'f, 'f>,
    /// The prefixes that are replaced, and where the given paths stand, if there are any.
    pub(crate) prefixes: Prefixes<'f>,
    places: Places<'f>,
    /// Whether the input is an executable.
    is_executable: Cell<bool>,
    /// What was counted of the files that were read.
    repetitions: Cell<Repetitions>,
    /// What is kept of the inputs for what is told of them.
    pub(crate) notes: Notes,
    ghost maps: { prefixes.words.now ≡ paths_in packing.now.prefix_maps },
}

impl<'f, F: FileSystem> InputFiles<'f, F> {
    /// These files, as a command reads them.
    pub(crate) fn new(
        alloc: Global,
        files: &'f F,
        packing: &'f Packing<'f, 'f>,
    ) -> Result<InputFiles<'f, F>, AllocError>
        ensures files { IfOk result (λ inputs. inputs.files.now ≡ files.now) }
        ensures packing { IfOk result (λ inputs. inputs.packing.now ≡ packing.now) }
    {
        let prefixes = Prefixes::new(alloc, paths_in(packing.prefix_maps))?;
        let mut places = Places::new(alloc);
        if !paths_in(packing.prefix_maps).is_empty() {
            places.add(paths_in(packing.executables))?;
            places.add(paths_in(packing.inputs))?;
        }
        Ok(InputFiles {
            alloc,
            files,
            packing,
            prefixes,
            places,
            is_executable: Cell::new(false),
            repetitions: Cell::new(Repetitions::new(alloc)),
            notes: Notes::new(alloc, packing),
        })
    }

    /// Begins an input. The objects that it names must be regular files: a read of another may wait
    /// for ever.
    pub(crate) fn begin(&self, input: Input<'_>) {
        self.notes.begin(input);
        self.is_executable
            .set(!matches!(input, Input::Object(_) | Input::Bytes(_)));
        let mut repetitions = self.repetitions.replace(Repetitions::new(self.alloc));
        repetitions.begin();
        self.repetitions.set(repetitions);
    }

    /// Whether the command line names a path.
    fn is_given(&self, path: &str) -> bool
        ensures { IsTrue result → IsAmong (paths_in self.now.packing.now.inputs) path.now
            ⊎ IsAmong (paths_in self.now.packing.now.executables) path.now }
    {
        if let Some(_place) = self.places.place_among(paths_in(self.packing.inputs), path) {
            return true;
        }
        let executables = paths_in(self.packing.executables);
        if let Some(_place) = self.places.place_among(executables, path) {
            return true;
        }
        false
    }

    /// Reads the file of a path that the input has, or that it names.
    #[tactic(auto, using(crate::proofs::Causes::through_given, crate::proofs::Causes::through_mapped))]
    fn read(
        &self,
        is_own: bool,
        path: Path<'_>,
        room: &mut Vec<u8>,
    ) -> Result<(), NotTaken<InputError, Growth>>
        ensures offered { IsReadInto (read_through self.now.packing.now (F.offer self.now.files.now)
            (path_bytes path.entry)) (MayRepeat self.now.packing.now.allows_overlap is_own)
            room.new.items result }
        ensures memory { OnFailed result IsNoWantOfMemory }
    {
        if is_own && self.is_given(path.path_text()) {
            return self.read_at(is_own, path, room);
        }
        let mapped = self.prefixes.mapped(path.path_text())?;
        self.read_at(is_own, Path::new(mapped.as_str()), room)
    }

    /// Reads the file at a path, and keeps for notes what becomes of that.
    fn read_at(
        &self,
        is_own: bool,
        path: Path<'_>,
        room: &mut Vec<u8>,
    ) -> Result<(), NotTaken<InputError, Growth>>
        ensures offered { IsReadInto (F.offer self.now.files.now (path_bytes path.entry))
            (MayRepeat self.now.packing.now.allows_overlap is_own) room.new.items result }
        ensures memory { OnFailed result IsNoWantOfMemory }
    {
        let read = if is_own {
            self.files.read_over(path, room)
        } else {
            self.files.read_regular_over(path, room)
        };
        if !is_own {
            let unread = match &read {
                Err(InputError::Io(cause)) => reason(self.alloc, cause).ok(),
                _ => None,
            };
            let named = String::from_str(self.alloc, path.path_text());
            self.notes.keep_named(named, unread);
        }
        read?;
        if self.packing.allows_overlap {
            return Ok(());
        }
        // The input's own file may always be added; an object of an executable may be one that was
        // read before by another path.
        let mut repetitions = self.repetitions.replace(Repetitions::new(self.alloc));
        let admits = if is_own {
            let counted = repetitions.count_own(self.files.identity(path.path_text()), room.len());
            counted.map(|_| true)
        } else {
            repetitions.admits_object(self.files.object_identity(path.path_text()), room.len())
        };
        self.repetitions.set(repetitions);
        if admits? {
            return Ok(());
        }
        Err(NotTaken::Declined(Growth::Repetition))
    }

    /// The bytes of an input with plain sections, where that is asked for; none where they stay as
    /// they are. Declined are sections that overlap, and those whose plain ones no file has.
    #[tactic(auto, unfolding(crate::specs::Taken::IsPlainFor))]
    fn plain(
        &self,
        is_executable: bool,
        bytes: &[u8],
    ) -> Result<Option<Vec<u8>>, NotTaken<InputError, Growth>>
        ensures plain { IfOk result (λ plain. IsPlainFor self.now.packing.now.decompresses bytes.now
            (spec.or_content bytes.now plain)) }
        ensures declined { OnDeclined result
            (DeclinesBytes (manner_of self.now.packing.now) bytes.now) }
        ensures memory { OnFailed result (λ e. e ≡ Memory) }
    {
        // Nothing of a file is decompressed where its sections overlap that are used, or those that
        // would be decompressed. Of an executable only these count: of each name it uses one
        // section alone.
        if !self.packing.allows_overlap
            && (!is_executable && has_overlap(bytes)
                || self.packing.decompresses && has_compressed_overlap(bytes))
        {
            return Err(NotTaken::Declined(Growth::Sections));
        }
        if !self.packing.decompresses {
            self.notes.compression.set(Compression::Left);
            return Ok(None);
        }
        self.notes.compression.set(Compression::None);
        match plain_of(self.alloc, bytes) {
            Ok(plain) => Ok(plain),
            Err(PlainError::Unread(error)) => {
                self.notes.compression.set(Compression::after(error));
                Ok(None)
            }
            Err(PlainError::TooLarge) => Err(NotTaken::Declined(Growth::Plain)),
            Err(PlainError::Memory) => Err(NotTaken::Failed(InputError::Memory)),
        }
    }

    /// What is taken for the content of a file, of an archive's member or of an object that a path
    /// names; none where that is taken as it is. Declined are also strings that overlap.
    #[tactic(auto, unfolding(thorin_inputs::specs::Macros::IsKeptOf))]
    pub(crate) fn taken(
        &self,
        is_executable: bool,
        content: &[u8],
        named: &str,
        is_member: bool,
    ) -> Result<Option<Vec<u8>>, NotTaken<InputError, Growth>>
        ensures taken { IfOk result (λ taken. IsTakenFor (manner_of self.now.packing.now)
            content.now (spec.or_content content.now taken)) }
        ensures declined { OnDeclined result
            (DeclinesBytes (manner_of self.now.packing.now) content.now) }
        ensures memory { OnFailed result (λ e. e ≡ Memory) }
    {
        let plain = self.plain(is_executable, content)?;
        let bytes = or_content(content, &plain);
        // An executable has no strings that are packed.
        if !self.packing.allows_overlap && !is_executable && has_inner_strings(self.alloc, bytes)? {
            return Err(NotTaken::Declined(Growth::Strings));
        }
        self.notes.inspect(bytes, named, is_member)?;
        match with_macros(self.alloc, bytes, self.packing.macros) {
            Ok(Some(kept)) => Ok(Some(kept)),
            Ok(None) => Ok(plain),
            Err(MacrosError::Memory) => Err(NotTaken::Failed(InputError::Memory)),
            Err(MacrosError::Unrepresentable) => Err(NotTaken::Declined(Growth::Macros)),
        }
    }

    /// Reads the file of a path that the input has, or names, and puts what is taken into room.
    pub(crate) fn fetch(
        &self,
        is_own: bool,
        path: Path<'_>,
        room: &mut Vec<u8>,
    ) -> Result<(), NotTaken<InputError, Growth>>
        ensures fetched { OnOk result (reads self.now.packing.now (F.offer self.now.files.now)
            (path_bytes path.entry) (Ok room.new.items)) }
        ensures refused { IfErr result (λ why. IsRead (reads self.now.packing.now
            (F.offer self.now.files.now) (path_bytes path.entry)) (declines self.now.packing.now
            (F.offer self.now.files.now) is_own (path_bytes path.entry)) (Err why)) }
        ensures memory { OnFailed result IsNoWantOfMemory }
    {
        let is_executable = is_own && self.is_executable.get();
        self.read(is_own, path, room)?;
        let named = if is_own { "" } else { path.path_text() };
        if let Some(taken) = self.taken(is_executable, room, named, false)? {
            *room = taken;
        }
        Ok(())
    }

    /// How many units the file at a path has, which is read for that, if it is a regular file.
    pub(crate) fn unit_count(&self, path: &str) -> Result<Option<usize>, Failure>
        ensures { IfErr result IsUncounted }
    {
        if !self.files.is_regular(path) {
            return Ok(None);
        }
        let mut room = Vec::new(self.alloc);
        match self.files.read_over(Path::new(path), &mut room) {
            Ok(()) => {}
            Err(InputError::Io(_)) => return Err(Failure::Input),
            Err(InputError::Memory) => return Err(Failure::Memory),
        }
        if self.packing.decompresses {
            decompress(self.alloc, &mut room, self.packing.allows_overlap)?;
        }
        Ok(count_units(room.as_slice()))
    }

    /// The warnings of sections of macros, where these are asked for. Asked for once.
    #[tactic(auto, using(crate::proofs::Warned::no_macros))]
    pub(crate) fn macro_warnings(&self) -> String
        ensures { TellsMacros self.now.packing.now.warns_of_macros (string_bytes result) }
    {
        if self.packing.warns_of_macros {
            self.notes.macros.take()
        } else {
            String::new(self.alloc)
        }
    }
}

impl<F: FileSystem> InputReader for InputFiles<'_, F> {
    type Refusal = Growth;

    ghost offer = { λ inputs. reads inputs.packing.now (F.offer inputs.files.now) };

    ghost declines = { λ inputs. declines inputs.packing.now (F.offer inputs.files.now) };

    fn read_into<'b>(
        &'b self,
        is_own: bool,
        path: Path<'_>,
        room: &'b mut Vec<u8>,
    ) -> Result<&'b [u8], NotTaken<InputError, Growth>> {
        self.fetch(is_own, path, room)?;
        Ok(room.as_slice())
    }

    fn admit(&self, repetition: Repetition<'_>) -> Result<(), Growth> {
        let mapped = self.prefixes.mapped(repetition.path.path_text());
        self.notes.keep_named(mapped, None);
        if self.packing.allows_overlap {
            return Ok(());
        }
        let mut repetitions = self.repetitions.replace(Repetitions::new(self.alloc));
        let admits = repetitions.admits(repetition.bytes, repetition.differing);
        self.repetitions.set(repetitions);
        if admits {
            Ok(())
        } else {
            Err(Growth::Repetition)
        }
    }

    fn after_unit(
        &self,
        unit: DwarfObject,
        is_there: bool,
        unit_count: usize,
        differing: &[DebugTypeSignature],
    ) {
        let now = Holding {
            units: unit_count,
            differing,
        };
        self.notes.after_unit(unit, is_there, now);
    }
}

/// What is taken for a content.
pub(crate) fn or_content<'a>(content: &'a [u8], taken: &'a Option<Vec<u8>>) -> &'a [u8]
    ensures { result.now ≡ spec.or_content content.now taken.now }
{
    match taken {
        Some(taken) => taken.as_slice(),
        None => content,
    }
}
