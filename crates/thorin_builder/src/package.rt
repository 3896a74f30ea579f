//! The package builder: `DwarfPackage`, its calls for objects and packages, and finishing. Its
//! calls for executables are in `executables`.

ghost use Rattle.thorin_join.specs.Builder as spec;
ghost use Rattle.std.specs.Prelude.{filter, IfErr, IfOk, IsTrue, length, List, map, [], ℕ, ◌≡◌};
ghost use Rattle.std.specs.Prelude.{IfSome, OnErr, OnOk, Option, true};
ghost use Rattle.dwp_bytes.specs.declared.encoding.Encoding.{Encoding as OwnEncoding};
ghost use Rattle.{std.specs.Path.path_bytes, thorin_errors.specs.Answers.Gives};
ghost use Rattle.thorin_join.specs.{Builder.IsFinishedState, Join.IsPackageOnceWritten, Join.Joins};
ghost use Rattle.thorin_join.specs.{Meaning.keys, Represents.IsSoundBegun, Represents.units_in};
ghost use Rattle.thorin_builder.specs.Missing.{missing_left, without_targets};
ghost use Rattle.thorin_again.specs.{Own.packs_again, OwnUnits.HasOneEncoding};
ghost use Rattle.thorin_again.specs.OwnAccepted.{IsAcceptedByNewOnceWritten, IsAcceptedOnceWritten};
ghost use Rattle.thorin_builder.specs.{Reading.OnDeclined, Reading.outcome_of, StateView.begun_of};
ghost use Rattle.thorin_builder.specs.Repeated.{AddsAgainTo, IsLaterBegun};
ghost use Rattle.thorin_builder.specs.Taking.{Takes, TakesFile, with_target};

use crate::adding::add_input;
use crate::in_progress::InProgressDwarfPackage;
use crate::missing::MissingTargets;
use crate::reader::{InputReader, NotTaken, tried, undeclined};
use crate::repeated::UnitlessInput;
use crate::state::finished;
use dwp_bytes::RelocationEntry;
use dwp_dwarf::Encoding;
use dwp_elf::WritableObject;
use dwp_table::{Bucketable, DebugTypeSignature, DwarfObject};
use indexmap::IndexSet;
use std::alloc::Global;
use std::fmt;
use std::marker::{Model, PhantomData};
use std::path::Path;
use thorin_errors::Error;
use thorin_input::common;
use thorin_join::inputs_are_joined;
use thorin_sessions::Session;

/// A package in the making: it takes one input after another. The session keeps what is read.
#[derive(Drop)]
pub struct DwarfPackage<'output, 'session: 'output, Sess: Session<RelocationEntry>> {
    pub(crate) alloc: Global,
    pub(crate) session: &'session Sess,
    in_progress: Option<InProgressDwarfPackage>,
    // Empty: the names that are contained where no input has begun a package.
    no_units: IndexSet<DwarfObject>,
    targets: IndexSet<DwarfObject>,
    // The one encoding of all units of the inputs, where each is a plain object that added a unit.
    own: Option<Encoding>,
    output: PhantomData<&'output ()>,
}

impl<'output, 'session: 'output, Sess: Session<RelocationEntry>> Model
    for DwarfPackage<'output, 'session, Sess> {
    ghost use Rattle.thorin_builder.specs.Building.{Building};

    ghost Value = { Building Sess };

    ghost use Rattle.thorin_builder.specs.BuilderView.{building};
    ghost use Rattle.std.specs.Prelude.{◌≡◌, []};
    ghost use Rattle.thorin_again.specs.OwnUnits.{HoldsOwn};
    ghost use Rattle.thorin_again.specs.Plain.{HoldsPlain};
    ghost use Rattle.thorin_join.specs.Represents.{IsSoundBegun};
    ghost use Rattle.thorin_builder.specs.StateView.{begun_of};

    ghost view = { building };

    ghost invariant = { λ p. (p.no_units.keys ≡ []) × IsSoundBegun (begun_of p.in_progress)
        × HoldsOwn (building p).state × HoldsPlain (building p).state };
}

impl<'output, 'session: 'output, Sess: Session<RelocationEntry>> fmt::Debug
    for DwarfPackage<'output, 'session, Sess> {
    fn fmt<W: fmt::Write>(&self, f: &mut fmt::Formatter<W>) -> fmt::Result {
        f.debug_struct("DwarfPackage")
            .field("in_progress", &self.in_progress)
            .field("target_count", &self.targets.len())
            .finish()
    }
}

impl<'output, 'session: 'output, Sess: Session<RelocationEntry>> DwarfPackage<
    'output,
    'session,
    Sess,
> {
    /// A package without any input yet. It takes no memory.
    pub fn new(alloc: Global, session: &'session Sess) -> Self
        ensures session { result.session ≡ session.now }
        ensures state { result.state ≡ spec.start }
    {
        DwarfPackage {
            alloc,
            session,
            in_progress: None,
            no_units: IndexSet::new(alloc),
            targets: IndexSet::new(alloc),
            own: None,
            output: PhantomData,
        }
    }

    /// Adds the object that the session reads at a path. Errors: `ReadInput` where the session
    /// can't read it, `Memory` where it has none, else those of `add_object_bytes`. An `Err` leaves
    /// the package as it was.
    pub fn add_input_object(&mut self, path: Path<'_>) -> Result<(), Error>
        ensures taken { TakesFile (Sess.offer self.old.session (path_bytes path.entry))
            self.old.state result self.new.state }
        ensures session { self.new.session ≡ self.old.session }
    {
        let session = self.session;
        let mut room = Vec::new(self.alloc);
        undeclined(self.add_input_by(session, &mut room, path))
    }

    /// Adds the object that a reader reads at a path, into room that is free again afterwards.
    /// Errors: `Failed` by those of `add_input_object`; `Declined` where the reader declines the
    /// file.
    #[tactic(auto, using(crate::proofs::Inputs::unread_file))]
    pub fn add_input_by<R: InputReader>(
        &mut self,
        reader: &R,
        room: &mut Vec<u8>,
        path: Path<'_>,
    ) -> Result<(), NotTaken<Error, R::Refusal>>
        ensures taken { TakesFile (R.offer reader.now (path_bytes path.entry)) self.old.state
            (outcome_of result) self.new.state }
        ensures declined { OnDeclined result (R.declines reader.now true (path_bytes path.entry)) }
        ensures session { self.new.session ≡ self.old.session }
    {
        let bytes = reader.read_into(true, path, room)?;
        tried(self.add_object_bytes(bytes))
    }

    /// Adds an object or a finished package: its units that aren't contained, with all that belongs
    /// to them (DWARF 5, 7.3.5). An object without `.debug_info.dwo` adds no unit, but begins the
    /// package. Errors: an `Err` leaves the package as it was. It is `Memory`, or the first error
    /// of these steps. The file: `ParseFileKind`, `InvalidInputKind`, `ParseObjectFile`. Its used
    /// sections: `DecompressData`, `ObjectRead`. The first unit: `ParseUnitHeader`,
    /// `NoCompilationUnits`. The byte order: `MixedInputEncodings`. Both indexes: `ParseIndex`,
    /// `IncompatibleIndexVersion`. Section by section, the kind: `RepeatedSection`,
    /// `SectionOutsideFormat`; and the string offsets: `MissingRequiredSection`,
    /// `BadStringOffsets`, `OverlappingStringOffsets`, `OffsetAtIndex`, `StrAtOffset`,
    /// `NumberTooLarge`. The abbreviations: `MissingRequiredSection`. The units in file order: a
    /// package's second section of units (`MultipleDebugInfoSection`, `MultipleDebugTypesSection`),
    /// `ParseUnitHeader`, what `dwo_identifier_of_unit` answers, `NotSplitUnit`, `DuplicateUnit`,
    /// `EmptyUnit`, and in a package `UnitNotInIndex`, `RowNotInIndex`, `BadContribution`,
    /// `SectionNotInRow`.
    #[tactic(auto, unfolding(thorin_join::specs::Builder::taken))]
    pub fn add_object_bytes(&mut self, bytes: &[u8]) -> Result<(), Error>
        ensures meaning { Gives (λ _. self.new.state) result (spec.taken bytes.now self.old.state) }
        ensures joins { OnOk result
            (Joins bytes.now (units_in self.old.state) (units_in self.new.state)) }
        ensures err { OnErr result (self.new.state ≡ self.old.state) }
        ensures later { OnOk result (IsLaterBegun self.old.state.begun self.new.state.begun) }
        ensures session { self.new.session ≡ self.old.session }
    {
        let is_first = self.in_progress.is_none();
        let units = unit_count(&self.in_progress);
        inputs_are_joined();
        let encoding = add_input(self.alloc, &mut self.in_progress, bytes)?;
        self.own = if unit_count(&self.in_progress) <= units {
            None
        } else if is_first {
            encoding
        } else {
            common(self.own, encoding)
        };
        Ok(())
    }

    /// Adds what an object adds that was added before, where that is no unit and no string. It
    /// refuses for memory alone.
    #[tactic(auto, unfolding(thorin_join::specs::Builder::taken))]
    pub(crate) fn add_again(&mut self, again: &UnitlessInput) -> Result<(), Error>
        requires known { (bytes : List ℕ) × AddsAgainTo bytes again.now self.old.state.begun }
        ensures takes { (bytes : List ℕ) → AddsAgainTo bytes again.now self.old.state.begun
            → Takes bytes self.old.state result self.new.state }
        ensures later { OnOk result (IsLaterBegun self.old.state.begun self.new.state.begun) }
        ensures session { self.new.session ≡ self.old.session }
    {
        inputs_are_joined();
        if let Some(package) = &mut self.in_progress {
            package.add_repeated(again)?;
            self.own = None;
        }
        Ok(())
    }

    /// What an object adds, where that is no unit and no string; None where it isn't, and where it
    /// can't be told. The package stays as it is.
    pub(crate) fn again_of(&mut self, bytes: &[u8]) -> Option<UnitlessInput>
        ensures state { self.new.state ≡ self.old.state }
        ensures again { IfSome result (λ again. AddsAgainTo bytes.now again self.old.state.begun) }
        ensures session { self.new.session ≡ self.old.session }
    {
        match &mut self.in_progress {
            Some(package) => package.adds_again(bytes).unwrap_or(None),
            None => None,
        }
    }

    /// Adds a compilation unit to the targets. It refuses for memory alone, and then changes
    /// nothing.
    pub(crate) fn add_target(&mut self, target: DwarfObject) -> Result<(), Error>
        ensures target { OnOk result (self.new.state ≡ with_target target self.old.state) }
        ensures refused { IfErr result (λ e. (e ≡ Error.Memory)
            × (self.new.state ≡ self.old.state)) }
        ensures session { self.new.session ≡ self.old.session }
    {
        match target {
            DwarfObject::Compilation(_) => {
                self.targets.insert(target)?;
                Ok(())
            }
            DwarfObject::TypeUnit(_) => Ok(()),
        }
    }

    /// The object to be written. Where `packs_again` was true, its written bytes can be an input
    /// again, memory aside: a new package accepts them, and has the same units then; any package of
    /// their byte order accepts them, unless a compilation unit is there already (`DuplicateUnit`)
    /// or the offset of a string doesn't fit (`NumberTooLarge`). Errors: `MissingReferencedUnit`
    /// for the first unit that an executable names and that isn't contained;
    /// `NoOutputObjectCreated` where no input began a package; what `write_index` answers of each
    /// index (`NumberTooLarge`, `MixedInputEncodings`, `SectionOutsideFormat`); `Memory`.
    pub fn finish(self) -> Result<WritableObject, Error>
        ensures refusal { Gives (λ _. tt) result (spec.finish_test self.entry.state) }
        ensures finished { IfOk result (IsFinishedState self.entry.state) }
        ensures packaged { IfOk result (IsPackageOnceWritten (units_in self.entry.state)) }
        ensures accepted { IfOk result (IsAcceptedOnceWritten self.entry.state) }
        ensures accepted_by_new { IfOk result (IsAcceptedByNewOnceWritten self.entry.state) }
    {
        let (file, _differing) = self.finish_with_differing();
        file
    }

    /// What `finish` gives, and beside it, even where `finish` refuses, the signatures that
    /// `differing_types` gives. The list is moved, which takes no memory.
    pub fn finish_with_differing(self) -> (Result<WritableObject, Error>, Vec<DebugTypeSignature>)
        ensures refusal { Gives (λ _. tt) result.0 (spec.finish_test self.entry.state) }
        ensures finished { IfOk result.0 (IsFinishedState self.entry.state) }
        ensures packaged { IfOk result.0 (IsPackageOnceWritten (units_in self.entry.state)) }
        ensures accepted { IfOk result.0 (IsAcceptedOnceWritten self.entry.state) }
        ensures accepted_by_new { IfOk result.0 (IsAcceptedByNewOnceWritten self.entry.state) }
        ensures differing { map (λ s. s.0) result.1.items ≡ spec.differing_in self.entry.state }
    {
        let tested = self.test_targets();
        let DwarfPackage {
            alloc,
            in_progress,
            targets,
            ..
        } = self;
        finished_begun(alloc, in_progress, &targets, tested)
    }

    /// The units that the package contains, in order of acceptance. It takes no memory. A proof
    /// about a borrowed package learns here that the builder's invariant holds, which the laws of
    /// `thorin_join` ask for.
    #[tactic(auto, using(crate::proofs::Inputs::names_begun))]
    pub fn contained_units(&self) -> &IndexSet<DwarfObject>
        ensures names { result.now.keys ≡ keys (units_in self.now.state) }
        ensures sound { IsSoundBegun self.now.state.begun }
    {
        match &self.in_progress {
            Some(package) => &package.names,
            None => &self.no_units,
        }
    }

    /// The signatures of type units that were passed over although their bytes differ from those of
    /// the kept unit: one for each such unit, in order. It takes no memory.
    pub fn differing_types(&self) -> &[DebugTypeSignature]
        ensures { map (λ s. s.0) result.now ≡ spec.differing_in self.now.state }
    {
        match &self.in_progress {
            Some(package) => &package.differing,
            None => &[],
        }
    }

    /// Whether the package, once it is finished and written, may be an input again: every accepted
    /// input was a plain object that added a unit; all their units, passed-over ones too, have one
    /// encoding; there are abbreviations, and strings if there are string offsets. It takes no
    /// memory.
    pub fn packs_again(&self) -> bool
        ensures exact { result ≡ packs_again self.now.state }
        ensures encoding { IsTrue result → HasOneEncoding self.now.state }
    {
        match &self.in_progress {
            Some(package) => self.own.is_some() && package.has_sections(),
            None => false,
        }
    }

    /// Forgets the units that executables refer to: `finish` then makes a package of what there is,
    /// also where some of them aren't contained.
    pub fn forget_targets(&mut self)
        ensures state { self.new.state ≡ without_targets self.old.state }
        ensures session { self.new.session ≡ self.old.session }
    {
        self.targets = IndexSet::new(self.alloc);
    }

    /// The units that executables refer to and that aren't contained, in order of insertion. It
    /// takes no memory.
    #[tactic(auto, using(crate::proofs::Inputs::names_begun))]
    pub fn missing_targets(&self) -> MissingTargets<'_>
        ensures { missing_left result
            ≡ filter (spec.is_missing (spec.names_in self.now.state.begun)) self.now.state.targets }
    {
        MissingTargets {
            contained: self.contained_units(),
            targets: &self.targets,
            next: 0,
        }
    }

    /// `MissingReferencedUnit` for the first of the missing targets.
    #[tactic(auto, using(crate::proofs::Inputs::first_passing), unfolding(thorin_join::specs::Builder::targets_test))]
    fn test_targets(&self) -> Result<(), Error>
        ensures { Gives (λ _. tt) result (spec.targets_test (spec.names_in self.now.state.begun)
            self.now.state.targets) }
    {
        match self.missing_targets().next() {
            Some(target) => Err(Error::MissingReferencedUnit(target.index())),
            None => Ok(()),
        }
    }
}

/// What is made of a package, where an input has begun one, once the targets were tested; and the
/// signatures of its type units that differ.
#[tactic(auto, unfolding(thorin_join::specs::Builder::finish_test))]
fn finished_begun(
    alloc: Global,
    in_progress: Option<InProgressDwarfPackage>,
    targets: &IndexSet<DwarfObject>,
    tested: Result<(), Error>,
) -> (Result<WritableObject, Error>, Vec<DebugTypeSignature>)
    requires { Gives (λ _. tt) tested
        (spec.targets_test (spec.names_in (begun_of in_progress)) targets.now.keys) }
    ensures refusal { (own : Option OwnEncoding) → Gives (λ _. tt) result.0 (spec.finish_test
        (record { begun = begun_of in_progress; targets = targets.now.keys; own = own })) }
    ensures finished { (own : Option OwnEncoding) → IfOk result.0 (IsFinishedState
        (record { begun = begun_of in_progress; targets = targets.now.keys; own = own })) }
    ensures differing { map (λ s. s.0) result.1.items
        ≡ spec.differing_begun (begun_of in_progress) }
{
    match in_progress {
        Some(package) => {
            let InProgressDwarfPackage {
                alloc,
                object,
                strings,
                names: _,
                rows,
                differing,
            } = package;
            let file = match tested {
                Ok(()) => finished(alloc, object, strings, &rows),
                Err(error) => Err(error),
            };
            (file, differing)
        }
        None => {
            let error = tested.err().unwrap_or(Error::NoOutputObjectCreated);
            (Err(error), Vec::new(alloc))
        }
    }
}

/// How many units a package has, where an input has begun one.
fn unit_count(in_progress: &Option<InProgressDwarfPackage>) -> usize
    ensures { result ≡ length (spec.names_in (begun_of in_progress.now)) }
{
    match in_progress {
        Some(package) => package.names.len(),
        None => 0,
    }
}
