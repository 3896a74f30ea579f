//! A value for each kind of section.

ghost use Rattle.std.specs.Prelude.{◌≡◌, Some, if◌then◌else◌, slice_get, slice_set, replicate};
ghost use Rattle.dwp_base.specs.ByKind.{values_of, value_of, ReadsEach};
ghost use Rattle.dwp_base.specs.Sections.{rank_of, same_kind};
ghost use Rattle.dwp_base.specs.declared.section.SectionKind.{SectionKind};

use crate::SectionKind;

/// A value for each kind of section, in the order of `SectionKind::ALL`.
#[derive(Clone, Copy)]
pub struct ByKind<T> {
    values: [T; 13],
}

impl<T: Copy> ByKind<T> {
    /// One value for every kind.
    #[inline(always)]
    pub fn same(value: T) -> ByKind<T>
        ensures values { values_of result ≡ replicate 13 value }
        ensures each { (default : T) (kind : SectionKind)
            → value_of default (values_of result) kind ≡ value }
    {
        ByKind {
            values: [value; 13],
        }
    }

    /// The value of a kind.
    #[inline(always)]
    pub fn get(&self, kind: SectionKind) -> T
        ensures at { slice_get (values_of self.now) (rank_of kind) ≡ Some result }
        ensures value { (default : T) → value_of default (values_of self.now) kind ≡ result }
    {
        self.values[usize::from(kind.rank())]
    }

    /// Puts a value in the place of a kind's; the others stay.
    #[inline(always)]
    pub fn set(&mut self, kind: SectionKind, value: T)
        ensures values { values_of self.new ≡ slice_set (values_of self.old) (rank_of kind) value }
        ensures each { (default : T) (other : SectionKind)
            → value_of default (values_of self.new) other ≡ (if same_kind other kind then value
            else value_of default (values_of self.old) other) }
    {
        self.values[kind.rank() as usize] = value;
    }

    /// What a function reads for each kind, one after another. `default` only fills the places
    /// until then: it is in no answer. Errors: the first that it answers, in the order of the
    /// kinds.
    #[inline(always)]
    pub fn read<E, F: Fn(SectionKind) -> Result<T, E>>(default: T, f: F) -> Result<ByKind<T>, E>
        requires { F.IsAlwaysCallable f }
        ensures { ReadsEach (F.post f) result }
    {
        let mut values = ByKind::same(default);
        for kind in &SectionKind::ALL {
            match f(*kind) {
                Ok(value) => values.set(*kind, value),
                Err(e) => return Err(e),
            }
        }
        Ok(values)
    }
}
