//! Adds a package that was packed before to a builder that the caller has.

ghost use Rattle.std.specs.Prelude.{IfErr, OnErr, OnOk, ◌≡◌};
ghost use Rattle.dwp_elf.specs.FileText.{file_text, Object};
ghost use Rattle.thorin_errors.specs.{Answers.Gives, Answers.MemoryAside, Errors.error_of};
ghost use Rattle.thorin_join.specs.Builder.{order_of, taken};
ghost use Rattle.thorin_join.specs.{Join.Joins, Represents.units_in};
ghost use Rattle.thorin_again.specs.{OwnAccepted.IsAccepted, OwnRefusals.IsForeseen};

use std::alloc::Global;
use thorin::{Bump, BytesSession, DwarfPackage, Error, RelocationEntry, Session};

/// How many units a new builder has once it took a package.
pub fn units_packed_again(alloc: Global, package: &[u8]) -> Result<usize, Error> {
    let arena = Bump::new(alloc);
    let session = BytesSession::new(&arena);
    let mut builder = DwarfPackage::new(alloc, &session);
    let count = match add_package(&mut builder, package) {
        Ok(()) => Ok(builder.contained_units().len()),
        Err(error) => Err(error),
    };
    drop(builder);
    count
}

/// Adds a package: the builder then has its units beside those that it had, or answers why not. One
/// of the builder's byte order, of whose own builder `packs_again` was true, can be refused, memory
/// aside, only for a compilation unit that is there already, or for the offset of a string that
/// doesn't fit.
pub fn add_package<'output, 'session: 'output, Sess: Session<RelocationEntry>>(
    builder: &mut DwarfPackage<'output, 'session, Sess>,
    bytes: &[u8],
) -> Result<(), Error>
    ensures meaning { Gives (λ _. builder.new.state) result (taken bytes.now builder.old.state) }
    ensures joins { OnOk result
        (Joins bytes.now (units_in builder.old.state) (units_in builder.new.state)) }
    ensures err { OnErr result (builder.new.state ≡ builder.old.state) }
    ensures refused { (file : Object) → bytes.now ≡ file_text file → IsAccepted file
        → order_of builder.old.state.begun file.order ≡ file.order
        → IfErr result (λ e. MemoryAside e (IsForeseen (error_of e))) }
{
    let _units = builder.contained_units();
    builder.add_object_bytes(bytes)
}
