//! Identifiers of units on the command line.

ghost use Rattle.std.specs.Prelude.{◌≡◌, MatchOption};
ghost use Rattle.std.specs.Str.Parse.{digits_value};
ghost use Rattle.thorin_words.specs.Identifiers.{IsIdentifier};

/// The number that 1 to 16 hexadecimal digits write, in either case; none for another text.
#[tactic(auto, using(crate::proofs::Numerals::identifier_read))]
pub fn hexadecimal(digits: &str) -> Option<u64>
    ensures { MatchOption result (¬ (IsIdentifier digits.now)) (λ n. IsIdentifier digits.now
        × (n ≡ digits_value 16 digits.now)) }
{
    if digits.is_empty() || digits.len() > 16 || digits.as_bytes()[0] == b'+' {
        return None;
    }
    u64::from_str_radix(digits, 16).ok()
}
