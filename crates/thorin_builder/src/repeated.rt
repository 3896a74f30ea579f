//! What an object adds each time that it is taken, where that is no unit and no string: an
//! executable may name it for many units.

ghost use Rattle.thorin_input.specs.View as view;
ghost use Rattle.std.specs.Prelude.{IfErr, IfOk, IfSome, length, map, OnErr, OnOk, Some, take, ◌≡◌};
ghost use Rattle.dwp_elf.specs.{FileText.Object, Growing.IsGrown};
ghost use Rattle.thorin_input.specs.Parts.{with_parts};
ghost use Rattle.thorin_builder.specs.Repeated.{AddsAgain, AddsNoUnit, with_more};
ghost use Rattle.thorin_builder.specs.StateView.{in_progress_of};
ghost use Rattle.thorin_join.specs.State as spec;

use crate::adding::source_for;
use crate::in_progress::InProgressDwarfPackage;
use crate::reader::Repetition;
use dwp_elf::WritableObject;
use dwp_table::DebugTypeSignature;
use std::alloc::Global;
use std::path::Path;
use thorin_errors::Error;
use thorin_input::{Part, PartBytes, Source, Walked, opened, parts_of};

/// What an input adds to a package each time that it is taken, where that is no unit and no string:
/// parts of sections, and the signatures of its type units that differ from those kept.
#[derive(Drop)]
pub(crate) struct UnitlessInput {
    pub parts: Vec<Part<'static>>,
    pub differing: Vec<DebugTypeSignature>,
}

impl UnitlessInput {
    /// What is added once more of the object at a path.
    pub fn repetition<'p>(&self, path: Path<'p>) -> Repetition<'p>
        ensures { result.path ≡ path.entry }
    {
        let mut bytes: usize = 0;
        for part in &self.parts {
            bytes = bytes.saturating_add(part.bytes().len());
        }
        Repetition {
            path,
            bytes,
            differing: self.differing.len(),
        }
    }
}

/// Adds parts to the contents of a package, in order. It refuses for memory alone.
#[tactic(auto, unfolding(thorin_input::specs::Parts::with_parts))]
fn put_each(file: &mut WritableObject, parts: &[Part<'_>]) -> Result<(), Error>
    ensures contents { OnOk result (file.new ≡
        record file.old { contents = with_parts (map view.part parts.now) file.old.contents }) }
    ensures refused { IfErr result (λ e. e ≡ Error.Memory) }
    ensures grown { (before : Object) → IsGrown before file.old → IsGrown before file.new }
{
    for part in parts {
        file.append(part.kind, part.bytes())?;
    }
    Ok(())
}

/// Parts with bytes of their own.
fn copied(alloc: Global, parts: &[Part<'_>]) -> Result<Vec<Part<'static>>, Error>
    ensures { IfOk result (λ copies. map view.part copies.items ≡ map view.part parts.now) }
{
    let mut copies = Vec::new(alloc);
    for part in parts {
        let mut bytes = Vec::new(alloc);
        bytes.extend_from_slice(part.bytes())?;
        copies.push(Part {
            kind: part.kind,
            bytes: PartBytes::Rewritten(bytes),
        })?;
    }
    Ok(copies)
}

impl InProgressDwarfPackage {
    /// What an input adds, where that is no unit and no string; else None, or the input's first
    /// error. The package stays as it is.
    pub(crate) fn adds_again(&mut self, bytes: &[u8]) -> Result<Option<UnitlessInput>, Error>
        ensures same { in_progress_of self.new ≡ in_progress_of self.old }
        ensures found { IfOk result (λ found. IfSome found (λ again.
            AddsAgain bytes.now again (in_progress_of self.old))) }
    {
        let file = opened(bytes)?;
        let Walked { with_units, input } = Walked::over(self.alloc, &file);
        if !with_units {
            drop(input);
            return Ok(Some(UnitlessInput {
                parts: Vec::new(self.alloc),
                differing: Vec::new(self.alloc),
            }));
        }
        let object = input?;
        let source = source_for(self.object.endianness(), object)?;
        let mark = self.mark()?;
        let found = self.try_again(&source);
        self.restore(&mark);
        found
    }

    /// What an input adds whose sections, encoding and indexes are known, where that is no unit and
    /// no string. It may leave strings behind those before.
    fn try_again(&mut self, source: &Source<'_>) -> Result<Option<UnitlessInput>, Error>
        ensures found { IfOk result (λ found. IfSome found (λ again.
            AddsNoUnit (view.source source.now) again (in_progress_of self.old))) }
        ensures kept { take (length (in_progress_of self.old).strings)
            (in_progress_of self.new).strings ≡ (in_progress_of self.old).strings }
        ensures strings { in_progress_of self.new
            ≡ record (in_progress_of self.old) { strings = (in_progress_of self.new).strings } }
    {
        let alloc = self.alloc;
        let strings = self.strings.len();
        let parts = parts_of(alloc, source, &mut self.strings)?;
        if self.strings.len() != strings || !source.object.has_abbreviations {
            return Ok(None);
        }
        let new = self.new_units(source, &parts)?;
        if !new.units.is_empty() {
            return Ok(None);
        }
        Ok(Some(UnitlessInput {
            parts: copied(alloc, &parts)?,
            differing: new.differing,
        }))
    }

    /// Adds what an input adds that adds no unit and no string. An `Err` leaves the package as it
    /// was; it is for memory alone.
    pub(crate) fn add_repeated(&mut self, again: &UnitlessInput) -> Result<(), Error>
        ensures added { OnOk result (in_progress_of self.new
            ≡ with_more (map view.part again.now.parts.items)
            (map (λ s. s.0) again.now.differing.items) (in_progress_of self.old)) }
        ensures refused { IfErr result (λ e. e ≡ Error.Memory) }
        ensures extends { OnOk result
            (spec.Extends (in_progress_of self.old) (in_progress_of self.new)) }
        ensures err { OnErr result (in_progress_of self.new ≡ in_progress_of self.old) }
    {
        let mark = self.mark()?;
        self.differing.extend_from_slice(&again.differing)?;
        if let Err(error) = put_each(&mut self.object, &again.parts) {
            self.restore(&mark);
            return Err(error);
        }
        Ok(())
    }
}
