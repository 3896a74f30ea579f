//! What declarations and values of attributes are, as laws.

ghost use Rattle.dwp_dwarf.specs.Grammar.{FoundIsFirst, AbsentIsNowhere, ErrorIsBefore};
ghost use Rattle.dwp_dwarf.specs.Values.{RootValuesLie};

/// What a table of abbreviations declares for a code is its first declaration of that code; it
/// declares nothing where all up to its end are of other codes, and has an error where the first
/// that can't be read comes before. It does nothing.
pub fn declarations_are_found_first()
    ensures found { FoundIsFirst }
    ensures absent { AbsentIsNowhere }
    ensures error { ErrorIsBefore }
{}

/// The values of a root entry's attributes lie one after the other in the bytes of its unit, behind
/// the header and the entry's code, as the abbreviation of the code lists them. It does nothing.
pub fn root_values_lie_in_the_unit()
    ensures { RootValuesLie }
{}
