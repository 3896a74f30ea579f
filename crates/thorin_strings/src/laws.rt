//! What rewritten string offsets name, as a law.

ghost use Rattle.std.specs.Prelude.{List, Ok, ℕ, ◌≡◌};
ghost use Rattle.dwp_base.specs.declared.endian.Endianness.{Endianness};
ghost use Rattle.dwp_bytes.specs.declared.encoding.Encoding.{Encoding};
ghost use Rattle.thorin_strings.specs.{Rewritten.NamesTheSame, StringOffsets.remapped};
ghost use Rattle.dwp_strings.specs.Strings.{IsTable};

/// The law of rewriting: a range of string offsets that was rewritten has as many entries as
/// before, and each names the same string, in the section of any table that begins with the strings
/// after it. It does nothing.
pub fn rewritten_offsets_name_the_same()
    ensures { (order : Endianness) (encoding : Encoding) (section bytes : List ℕ) (size : ℕ)
        (before : List (List ℕ)) (rewritten : List ℕ) (after : List (List ℕ))
        → IsTable before
        → remapped order encoding section bytes size before ≡ Ok (rewritten, after)
        → NamesTheSame order encoding section bytes size before rewritten after }
{}
