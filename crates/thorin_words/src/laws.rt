//! What words of a text are, and that those of a line are told, as laws.

ghost use Rattle.std.specs.Prelude.{◌≡◌, ◌≤◌, ℕ, List, length};
ghost use Rattle.thorin_words.specs.Responses.{AreBare, CannotBeTold};
ghost use Rattle.thorin_words.specs.Words.{words_of, quoted};
ghost use Rattle.thorin_words.specs.declared.responses.ResponseError.TheVariants as errors;

use crate::responses::{ResponseError, ResponseFiles};

/// Law: each list of words is read from the text that has each of them between quotation marks,
/// with a backslash before each byte, and a blank behind it.
#[tactic(auto, using(crate::proofs::Splitting::from_quoted), unfolding(crate::specs::Words::words_of))]
pub fn quoted_words_are_read()
    ensures { (words : List (List ℕ)) → words_of (quoted words) ≡ words }
{}

/// Law: words of which none names a file are told, whatever a read of a file may answer, but where
/// memory runs out, or these are more than 2,097,152.
#[tactic(auto, using(crate::proofs::Bare::told))]
pub fn words_without_files_are_told<F: ResponseFiles>(files: &F)
    ensures { (line : List (List ℕ)) → AreBare line → length line ≤ 2097152 → (e : ResponseError)
        → CannotBeTold (F.offer files.now) (F.fails files.now) line e → e ≡ errors.Memory }
{
    let _ = files;
}
