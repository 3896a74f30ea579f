//! The units that executables refer to and that a package lacks.

ghost use Rattle.std.specs.Prelude.{◌≡◌, ◌∷◌, [], drop, filter, MatchOption};
ghost use Rattle.thorin_join.specs.Builder.{is_missing};

use dwp_table::DwarfObject;
use indexmap::IndexSet;

/// The units that executables refer to and that aren't contained, in order of insertion.
#[derive(Drop)]
pub struct MissingTargets<'a> {
    pub(crate) contained: &'a IndexSet<DwarfObject>,
    pub(crate) targets: &'a IndexSet<DwarfObject>,
    pub(crate) next: usize,
}

impl Iterator for MissingTargets<'_> {
    ghost use Rattle.std.specs.Iterator.{YieldsFirst, item_count};
    ghost use Rattle.thorin_builder.specs.Missing.{missing_left};

    type Item = DwarfObject;

    ghost next_gives = { YieldsFirst missing_left };

    ghost remaining = { item_count missing_left };

    fn next(&mut self) -> Option<DwarfObject> {
        let (target, next) = first_missing(self.contained, self.targets, self.next)?;
        self.next = next;
        Some(target)
    }
}

/// The first unit from a place on that isn't contained, and the place after it.
#[tactic(auto, using(crate::proofs::Inputs::first_left, crate::proofs::Inputs::among_is))]
fn first_missing(
    contained: &IndexSet<DwarfObject>,
    targets: &IndexSet<DwarfObject>,
    start: usize,
) -> Option<(DwarfObject, usize)>
    ensures { MatchOption result
        (filter (is_missing contained.now.keys) (drop start targets.now.keys) ≡ []) (λ s.
        filter (is_missing contained.now.keys) (drop start targets.now.keys)
        ≡ s.0 ∷ filter (is_missing contained.now.keys) (drop s.1 targets.now.keys)) }
{
    for place in start..targets.len() {
        let target = &targets[place];
        if !contained.contains(target) {
            return Some((*target, place + 1));
        }
    }
    None
}
