//! The units that an executable names, read as far as there is room for them.

ghost use Rattle.std.specs.Prelude.{◌≡◌, ◌≢◌, ◌+◌, ◌++◌, ◌∷◌, [], List, take, Some, option_map};
ghost use Rattle.std.specs.Prelude.{IfOk, OnOk};
ghost use Rattle.thorin_errors.specs.Errors.{error_of};
ghost use Rattle.thorin_executable.specs.Skeletons.{Named, skeletons_of};
ghost use Rattle.thorin_c.specs.Skeletons.{IsFirst};

use crate::listing::kind_number;
use crate::types::ThorinSkeleton;
use dwp_table::{Bucketable, DwarfObject};
use std::alloc::{AllocError, Global};
use thorin::BytesSession;
use thorin_errors::Error;
use thorin_executable::{NamedUnits, NamelessUnits};

/// How many units there is room for, and how many bytes of their paths.
#[derive(Clone, Copy)]
pub(crate) struct Room {
    pub(crate) names: usize,
    pub(crate) paths: usize,
}

/// The units that were read, as far as there is room.
#[derive(Drop)]
pub(crate) struct FirstUnits {
    pub(crate) names: Vec<ThorinSkeleton>,
    /// Their paths, each with a zero byte behind it.
    pub(crate) paths: Vec<u8>,
    /// How many units were read, and how many bytes their paths have.
    pub(crate) count: u64,
    pub(crate) size: u64,
}

impl FirstUnits {
    /// The units that an executable names, and the error that ends them.
    pub(crate) fn read<'s>(
        alloc: Global,
        session: &'s BytesSession<'_>,
        bytes: &'s [u8],
        room: Room,
    ) -> Result<(FirstUnits, Option<Error>), AllocError>
        ensures end { IfOk result (λ read.
            (skeletons_of bytes.now).1 ≡ option_map error_of read.1) }
        ensures first { IfOk result (λ read. IsFirst room (skeletons_of bytes.now).0 read.0) }
    {
        let mut first = FirstUnits {
            names: Vec::new(alloc),
            paths: Vec::new(alloc),
            count: 0,
            size: 0,
        };
        match NamedUnits::read_by(alloc, session, bytes, NamelessUnits::Refused) {
            Ok(mut units) => {
                let error = first.read_left(&mut units, room)?;
                Ok((first, error))
            }
            Err(error) => Ok((first, ended(error)?)),
        }
    }

    #[tactic(auto, using(crate::proofs::Lists::none_read, crate::proofs::Lists::ends))]
    fn read_left(
        &mut self,
        units: &mut NamedUnits<'_>,
        room: Room,
    ) -> Result<Option<Error>, AllocError>
        requires { IsFirst room [] self.old }
        ensures end { IfOk result (λ e. units.old.listed.1 ≡ option_map error_of e) }
        ensures first { OnOk result (IsFirst room units.old.listed.0 self.new) }
    {
        loop {
            match units.next() {
                Ok(Some(unit)) => self.add(room, unit.target, units.path())?,
                Ok(None) => return Ok(None),
                Err(error) => return ended(error),
            }
        }
    }

    /// Adds a unit that was read, and the path of its object.
    #[tactic(auto, using(crate::proofs::Lists::first_more))]
    fn add(&mut self, room: Room, target: DwarfObject, path: &str) -> Result<(), AllocError>
        ensures { OnOk result ((units : List Named) → IsFirst room units self.old
            → IsFirst room (units ++ (target, path.now) ∷ []) self.new) }
    {
        let bytes = path.as_bytes();
        let path_size = bytes.len() as u64;
        let unit = ThorinSkeleton {
            id: target.index(),
            path_size,
            kind: kind_number(target),
        };
        put(&mut self.names, room.names, &[unit])?;
        put(&mut self.paths, room.paths, bytes)?;
        put(&mut self.paths, room.paths, &[0])?;
        self.count = sum(self.count, 1)?;
        self.size = sum(sum(self.size, path_size)?, 1)?;
        Ok(())
    }
}

/// The error that ends a list, unless memory ran out.
fn ended(error: Error) -> Result<Option<Error>, AllocError>
    ensures end { IfOk result (λ e. e ≡ Some error) }
    ensures memory { OnOk result (error ≢ Error.Memory) }
{
    match error {
        Error::Memory => Err(AllocError),
        error => Ok(Some(error)),
    }
}

/// A sum that 64 bits hold: more bytes are in no memory.
fn sum(a: u64, b: u64) -> Result<u64, AllocError>
    ensures { IfOk result (λ c. c ≡ a + b) }
{
    a.checked_add(b).ok_or(AllocError)
}

/// Puts as much behind the first of a list as there is room for.
#[tactic(auto, using(crate::proofs::Lists::front_more))]
fn put<T: Copy>(first: &mut Vec<T>, room: usize, more: &[T]) -> Result<(), AllocError>
    ensures { OnOk result ((all : List T) → first.old.items ≡ take room all
        → first.new.items ≡ take room (all ++ more.now)) }
{
    let left = room.saturating_sub(first.len());
    first.extend_from_slice(&more[..left.min(more.len())])
}
