//! What a written package is as an input again, as definitions and laws of them. No function of it
//! does anything.
#![tactic(auto, using(crate::proofs::Proven::proven))]

mod laws;

pub use laws::{
    identities_stay_in_longer_abbreviations, inputs_of_one_encoding_keep_their_strings,
    one_encoding_is_kept, own_packages_are_accepted, own_packages_are_accepted_by_a_new_one,
    own_packages_are_taken_up_to_their_parts, own_string_offsets_are_rewritten,
    own_units_are_taken, packages_have_the_encoding_of_their_inputs,
    packages_that_pack_again_are_accepted, plain_objects_pack_again, plain_packages_are_kept,
    taken_rows_are_in_the_format, the_first_byte_order_stays, written_packages_mean_their_units,
};
