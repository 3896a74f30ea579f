//! What joining inputs means, as definitions and laws of them. No function of it does anything.
#![tactic(auto, using(crate::proofs::Joined::laws, crate::proofs::Files::laws, crate::proofs::Sizes::laws))]

mod laws;

pub use laws::{
    finished_packages_are_read, finished_packages_have_their_sizes, inputs_are_joined,
    inputs_stand_apart, packages_grow_by_used_sections, strings_grow_by_offsets,
    strings_stand_in_order_of_first_use, written_packages_are_read,
};
