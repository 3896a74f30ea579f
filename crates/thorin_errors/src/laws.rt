//! What the texts of errors are, as a law.

ghost use Rattle.std.specs.Prelude.{false, IsSome, ◌≡◌};
ghost use Rattle.thorin_errors.specs.{Errors.ErrorValue, Text.error_text, Text.is_passed_on};

/// The law of texts: each error has one, but those that only pass on a cause. It does nothing.
pub fn every_error_has_a_text()
    ensures { (error : ErrorValue) → is_passed_on error ≡ false → IsSome (error_text error) }
{}
